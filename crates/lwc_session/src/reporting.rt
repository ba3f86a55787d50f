//! What a session writes: its report, or the image that it leaves.

ghost use Rattle.std.specs.Prelude.{◌≡◌, ◌≤◌, ◌+◌, IfOk, length};
ghost use Rattle.guest_image.specs.Limits.{IsImage};
ghost use Rattle.guest_image.specs.Spelling.{spelling};
ghost use Rattle.kernel_core.specs.Kernel.{CanOpen};
ghost use Rattle.kernel_core.specs.Machine.{work};
ghost use Rattle.kernel_core.specs.Settings.{IsSettings};
ghost use Rattle.kernel_core.specs.Start.{inputs_of, start};
ghost use Rattle.kernel_core.specs.declared.settings.Job.TheVariants as jobs;
ghost use Rattle.lwc_session.specs.At.{IsAt};
ghost use Rattle.lwc_session.specs.Sessions as spec;
ghost use Rattle.lwc_types.specs.declared.limits.TheConstants.{MOST_STEPS};

use crate::session::{Session, open_kernel};
use guest_image::{Image, write_image};
use kernel_core::{Kernel, Settings};
use lwc_base::{OutOfMemory, Requests};
use lwc_text::{context_lines, groups_line, tail_lines, thread_lines};
use std::alloc::Global;
use world_face::World;

/// The report of a session of these requests. The only error is out of memory.
pub fn session_report<W: World>(
    alloc: Global,
    image: Image,
    requests: &Requests,
    settings: &Settings,
) -> Result<Vec<u8>, OutOfMemory>
    requires can { CanOpen (inputs_of image requests.now settings.now) }
    requires worker { settings.now.job ≡ jobs.Serve 1 }
    requires few { work (start (inputs_of image requests.now settings.now)) ≤ MOST_STEPS }
    ensures { IfOk result (λ text. text.items
        ≡ spec.session_text (inputs_of image requests.now settings.now)) }
{
    let session = session_of::<W>(alloc, image, requests, settings)?;
    report::<W>(alloc, &session, settings)
}

/// The bytes of the image that a session of these requests leaves. The only error is out of memory.
pub fn session_image<W: World>(
    alloc: Global,
    image: Image,
    requests: &Requests,
    settings: &Settings,
) -> Result<Vec<u8>, OutOfMemory>
    requires can { CanOpen (inputs_of image requests.now settings.now) }
    requires worker { settings.now.job ≡ jobs.Serve 1 }
    requires few { work (start (inputs_of image requests.now settings.now)) ≤ MOST_STEPS }
    ensures { IfOk result (λ bytes. bytes.items
        ≡ spelling (spec.image_after (inputs_of image requests.now settings.now))) }
{
    let session = session_of::<W>(alloc, image, requests, settings)?;
    write_image(alloc, &session.image)
}

/// The session of these requests. The only error is out of memory.
fn session_of<W: World>(
    alloc: Global,
    image: Image,
    requests: &Requests,
    settings: &Settings,
) -> Result<Session, OutOfMemory>
    requires can { CanOpen (inputs_of image requests.now settings.now) }
    requires worker { settings.now.job ≡ jobs.Serve 1 }
    requires few { work (start (inputs_of image requests.now settings.now)) ≤ MOST_STEPS }
    ensures at { IfOk result (λ session.
        IsAt session (spec.session_of (inputs_of image requests.now settings.now))) }
    ensures image { IfOk result (λ session. IsImage session.image) }
    ensures fits { IfOk result (λ session. length session.image.pages ≤ settings.now.frames) }
    ensures steps { IfOk result (λ session. session.steps + 1 ≤ MOST_STEPS) }
{
    let mut session = Session::open(alloc, image);
    'requests: for r in 0..requests.len() {
        session.serve::<W>(alloc, requests.get(r).as_slice(), settings)?;
    }
    Ok(session)
}

/// The report of a session: its one worker, which finds no more request, the home that it waits in, the replies, and
/// the steps. The only error is out of memory.
fn report<W: World>(
    alloc: Global,
    session: &Session,
    settings: &Settings,
) -> Result<Vec<u8>, OutOfMemory>
    requires image { IsImage session.now.image }
    requires fits { length session.now.image.pages ≤ settings.now.frames }
    requires settings { IsSettings settings.now }
    requires worker { settings.now.job ≡ jobs.Serve 1 }
    requires steps { session.now.steps + 1 ≤ MOST_STEPS }
    ensures { (s : spec.Session) → IsAt session.now s →
        IfOk result (λ text. text.items ≡ spec.report_of settings.now s) }
{
    let none = Requests::of(Vec::new(alloc));
    let mut kernel: Kernel<W> = open_kernel(alloc, &session.image, none, 1, settings)?;
    kernel.make_step(0, None)?;
    let mut text = Vec::new(alloc);
    thread_lines(&mut text, 0, &kernel.thread(0))?;
    context_lines(&mut text, kernel.world())?;
    groups_line(&mut text, kernel.world().group_count())?;
    text.extend_from_slice(session.replies.as_slice())?;
    let peak = session.peak.max(kernel.peak());
    let steps = vec![in alloc; 0; session.steps as usize + 1]?;
    tail_lines(
        &mut text,
        kernel.channels().console(),
        kernel.world().used(),
        peak,
        steps.as_slice(),
    )?;
    Ok(text)
}
