//! A session so far, and how a request takes it on.

ghost use Rattle.std.specs.Prelude.{◌≡◌, ◌≤◌, ◌+◌, ◌∷◌, ◌<◌, [], IfOk, OnOk, length};
ghost use Rattle.std.specs.Option.{option_map};
ghost use Rattle.guest_image.specs.Limits.{IsImage};
ghost use Rattle.kernel_core.specs.Kernel.{CanOpen, opened};
ghost use Rattle.kernel_core.specs.Settings.{IsSettings};
ghost use Rattle.kernel_core.specs.Start.{inputs_of};
ghost use Rattle.kernel_core.specs.declared.settings.Job.TheVariants as jobs;
ghost use Rattle.lwc_session.specs.Sessions as spec;
ghost use Rattle.lwc_session.specs.At.{IsAt};
ghost use Rattle.lwc_types.specs.declared.limits.TheConstants.{MOST_REQUESTS, MOST_REQUEST_BYTES, MOST_STEPS};

use crate::lines::served_line;
use crate::serving::serve_alone;
use guest_image::{Image, PageImage};
use kernel_core::{Kernel, Settings};
use lwc_base::{OutOfMemory, Requests, Sequence};
use std::alloc::Global;
use world_face::World;

/// A session so far.
#[derive(Drop)]
pub struct Session {
    /// The image that it has come to.
    pub image: Image,
    /// The lines of the replies to its requests, in order.
    pub replies: Vec<u8>,
    /// The number of requests.
    pub served: u16,
    /// The number of steps for them.
    pub steps: u32,
    /// The most frames that were in use.
    pub peak: u32,
}

impl Session {
    /// A session in which no request was served.
    pub fn open(alloc: Global, image: Image) -> Session
        ensures { IsAt result (spec.begun image) }
    {
        Session {
            image,
            replies: Vec::new(alloc),
            served: 0,
            steps: 0,
            peak: 0,
        }
    }

    /// Serves one more request, from the image so far. The only error is out of memory.
    pub fn serve<W: World>(
        &mut self,
        alloc: Global,
        request: &[u8],
        settings: &Settings,
    ) -> Result<(), OutOfMemory>
        requires image { IsImage self.old.image }
        requires fits { length self.old.image.pages ≤ settings.now.frames }
        requires settings { IsSettings settings.now }
        requires worker { settings.now.job ≡ jobs.Serve 1 }
        requires short { length request.now ≤ MOST_REQUEST_BYTES }
        requires few { self.old.served < MOST_REQUESTS }
        requires steps { self.old.steps + (settings.now.budget + 2) ≤ MOST_STEPS }
        ensures at { (s : spec.Session) → IsAt self.old s →
            OnOk result (IsAt self.new (spec.after_request settings.now s request.now)) }
        ensures image { OnOk result (IsImage self.new.image) }
        ensures fits { OnOk result (length self.new.image.pages ≤ settings.now.frames) }
        ensures steps { OnOk result (self.new.steps ≤ self.old.steps + (settings.now.budget + 1)) }
        ensures served { OnOk result (self.new.served ≡ self.old.served + 1) }
    {
        let mut kernel: Kernel<W> = open_alone(alloc, &self.image, request, settings)?;
        let kept = serve_alone(alloc, &mut kernel, settings.frames)?;
        served_line(
            &mut self.replies,
            self.served,
            kernel.reply(0),
            kept.is_some(),
        )?;
        self.served += 1;
        self.steps += kernel.schedule().len() as u32 - 1;
        self.peak = self.peak.max(kernel.peak());
        self.keep(kept);
        Ok(())
    }

    /// Takes the pages of a request that is kept.
    fn keep(&mut self, kept: Option<Vec<PageImage>>)
        ensures image { self.new.image ≡ spec.image_with self.old.image (option_map (λ v. v.items) kept) }
        ensures replies { self.new.replies.items ≡ self.old.replies.items }
        ensures served { self.new.served ≡ self.old.served }
        ensures steps { self.new.steps ≡ self.old.steps }
        ensures peak { self.new.peak ≡ self.old.peak }
    {
        if let Some(pages) = kept {
            self.image.pages = Sequence::of(pages);
        }
    }
}

/// A kernel that serves one request by one worker. The only error is out of memory.
fn open_alone<W: World>(
    alloc: Global,
    image: &Image,
    request: &[u8],
    settings: &Settings,
) -> Result<Kernel<W>, OutOfMemory>
    requires image { IsImage image.now }
    requires fits { length image.now.pages ≤ settings.now.frames }
    requires settings { IsSettings settings.now }
    requires worker { settings.now.job ≡ jobs.Serve 1 }
    requires short { length request.now ≤ MOST_REQUEST_BYTES }
    ensures { IfOk result (λ kernel. kernel
        ≡ opened (inputs_of image.now (request.now ∷ []) settings.now) (settings.now.budget + 2)) }
{
    let request = Sequence::of(Vec::from_slice(alloc, request)?);
    let mut requests = Vec::new(alloc);
    requests.push(request)?;
    open_kernel(
        alloc,
        image,
        Sequence::of(requests),
        settings.budget + 2,
        settings,
    )
}

/// A kernel with room for this number of steps. The only error is out of memory.
pub(crate) fn open_kernel<W: World>(
    alloc: Global,
    image: &Image,
    requests: Requests,
    steps: u32,
    settings: &Settings,
) -> Result<Kernel<W>, OutOfMemory>
    requires can { CanOpen (inputs_of image.now requests settings.now) }
    requires steps { steps ≤ MOST_STEPS }
    ensures { IfOk result (λ kernel. kernel ≡ opened (inputs_of image.now requests settings.now) steps) }
{
    match Kernel::open(alloc, image, requests, steps, settings) {
        Ok(kernel) => Ok(kernel),
        Err(_) => Err(OutOfMemory),
    }
}
