//! The same replays over a world by whole copies.

ghost use Rattle.guest_image.specs.Limits.{IsImage};
ghost use Rattle.kernel_core.specs.Kernel.{MayHave};
ghost use Rattle.kernel_core.specs.Settings.{IsSettings};
ghost use Rattle.lwcrun_line.specs.Lines.{AreRunSettings};

use crate::calls::line_of;
use crate::case::Case;
use guest_image::{Image, read_image};
use kernel_core::{Kernel, OpenFault, Settings};
use lwc_base::{OutOfMemory, Requests};
use lwc_debug::{debug, read_script};
use lwc_guard::guard_replay;
use lwc_monitor::monitor_replay;
use lwc_text::{read_requests, read_schedule, read_vault, report};
use lwc_vault::{takes_vault_slot, vault_replay};
use lwcrun_core::{Line, read_line};
use std::alloc::{AllocError, Global};
use whole_world::WholeWorld;

/// What a line of a case writes over a world by whole copies, or nothing if it asks for no replay, or its image or its
/// requests are refused. Where another file is refused the text is empty.
pub fn text_over_copies(
    alloc: Global,
    guest: &[u8],
    case: &Case,
    words: &str,
) -> Result<Option<Vec<u8>>, AllocError> {
    let Ok(image) = read_image(alloc, guest) else {
        return Ok(None);
    };
    let schedule = case.schedule.as_bytes();
    let text = match read_line(alloc, line_of(alloc, words)?.as_slice()) {
        Ok(
            Line::Replay {
                requests: None,
                settings,
                ..
            },
        ) => {
            let requests = Requests::of(Vec::new(alloc));
            steps_over_copies(alloc, &image, requests, &settings, schedule)?
        }
        Ok(
            Line::Replay {
                requests: Some(_),
                settings,
                ..
            },
        ) => {
            let Ok(requests) = read_requests(alloc, case.requests.as_bytes()) else {
                return Ok(None);
            };
            steps_over_copies(alloc, &image, requests, &settings, schedule)?
        }
        Ok(Line::Monitor { settings, .. }) => {
            monitored_over_copies(alloc, &image, &settings, schedule, false)?
        }
        Ok(Line::Guard { settings, .. }) => {
            monitored_over_copies(alloc, &image, &settings, schedule, true)?
        }
        Ok(Line::Vault { settings, .. }) => {
            vaulted_over_copies(alloc, &image, &case.vault, &settings, schedule)?
        }
        Ok(Line::Debug { settings, .. }) => {
            let script = case.script.as_bytes();
            debugged_over_copies(alloc, &image, script, &settings, schedule)?
        }
        _ => return Ok(None),
    };
    Ok(Some(text))
}

/// The report of the schedule's steps over a world by whole copies. Bytes but the digits 0 to 9 of threads
/// are left out.
fn steps_over_copies(
    alloc: Global,
    image: &Image,
    requests: Requests,
    settings: &Settings,
    schedule: &[u8],
) -> Result<Vec<u8>, AllocError>
    requires image { IsImage image.now }
    requires settings { IsSettings settings.now }
    requires requests { MayHave settings.now.job requests }
{
    let Ok(mut kernel) = Kernel::<WholeWorld>::open(alloc, image, requests, 1000, settings) else {
        return Ok(Vec::new(alloc));
    };
    for digit in schedule {
        let t = u32::from(digit.wrapping_sub(b'0'));
        if t < kernel.thread_count() && 0 < kernel.room() {
            if kernel.step(t, None).is_err() {
                return Ok(Vec::new(alloc));
            }
        }
    }
    report(alloc, &kernel).or_else(|_| Ok(Vec::new(alloc)))
}

/// The report of the schedule's steps, in which contexts may be trapped, and guarded where that is asked for, over a
/// world by whole copies.
fn monitored_over_copies(
    alloc: Global,
    image: &Image,
    settings: &Settings,
    schedule: &[u8],
    guarded: bool,
) -> Result<Vec<u8>, AllocError>
    requires image { IsImage image.now }
    requires settings { AreRunSettings settings.now }
{
    let fits = image.pages.len() as u32 <= settings.frames;
    let text = match read_schedule(alloc, schedule, image.entries.len() as u32) {
        Ok(steps) if fits && guarded => guard_replay::<WholeWorld>(alloc, image, &steps, settings),
        Ok(steps) if fits => monitor_replay::<WholeWorld>(alloc, image, &steps, settings),
        _ => return Ok(Vec::new(alloc)),
    };
    text.or_else(|_| Ok(Vec::new(alloc)))
}

/// The report of the schedule's steps beside the vault of a file, over a world by whole copies.
fn vaulted_over_copies(
    alloc: Global,
    image: &Image,
    vault: &[u8],
    settings: &Settings,
    schedule: &[u8],
) -> Result<Vec<u8>, AllocError>
    requires image { IsImage image.now }
    requires settings { AreRunSettings settings.now }
{
    let instructions = image.text.len() as u32;
    let Ok(vault) = read_vault(alloc, vault, instructions, image.form.pages()) else {
        return Ok(Vec::new(alloc));
    };
    if takes_vault_slot(image) {
        return Ok(Vec::new(alloc));
    }
    match read_schedule(alloc, schedule, image.entries.len() as u32) {
        Ok(steps) => vault_replay::<WholeWorld>(alloc, image, &vault, &steps, settings).or_else(
            |_| Ok(Vec::new(alloc)),
        ),
        Err(_) => Ok(Vec::new(alloc)),
    }
}

/// The answers to a script in the schedule's steps, over a world by whole copies.
fn debugged_over_copies(
    alloc: Global,
    image: &Image,
    script: &[u8],
    settings: &Settings,
    schedule: &[u8],
) -> Result<Vec<u8>, AllocError>
    requires image { IsImage image.now }
    requires settings { AreRunSettings settings.now }
{
    let Ok(script) = read_script(alloc, script) else {
        return Ok(Vec::new(alloc));
    };
    match read_schedule(alloc, schedule, image.entries.len() as u32) {
        Ok(steps) => debug::<WholeWorld>(alloc, image, &steps, &script, settings).or_else(|_| Ok(
            Vec::new(alloc),
        )),
        Err(_) => Ok(Vec::new(alloc)),
    }
}
