ghost use Rattle.std.specs.Prelude.{◌≡◌, ◌≤◌, ◌<◌, ◌+◌, ◌^◌, All, IfOk, OnOk, length};
ghost use Rattle.lwc_types.specs.declared.limits.TheConstants.{MOST_IMAGE_BYTES, MOST_REQUESTS};
ghost use Rattle.lwc_types.specs.declared.limits.TheConstants.{MOST_REQUEST_FILE_BYTES, MOST_SCHEDULE_BYTES};
ghost use Rattle.lwc_types.specs.declared.limits.TheConstants.{MOST_SOURCE_BYTES, MOST_STEPS};
ghost use Rattle.guest_image.specs.Limits.{IsImage};
ghost use Rattle.kernel_core.specs.Kernel.{AreRequests};
ghost use Rattle.kernel_core.specs.Settings.{IsSettings};
ghost use Rattle.lwcrun_inputs.specs.Inputs.{bounded_requests_of, fitting_image_of, image_of};
ghost use Rattle.lwcrun_inputs.specs.Inputs.{requests_of, schedule_of, serve_steps, source_of};
ghost use Rattle.lwcrun_inputs.specs.Inputs.{within_limit};
ghost use Rattle.lwcrun_inputs.specs.Parts.{ReadsBy};
ghost use Rattle.lwcrun_inputs.specs.Reading.{Fetched, ReadsOnward, ReadsToTheEnd};
ghost use Rattle.lwcrun_inputs.specs.Views.{found};

use crate::ending::{Ending, Rejection};
use crate::reading::{FetchError, read_whole};
use guest_asm::{SourceRule, assemble};
use guest_image::{Image, ImageRule, read_image};
use kernel_core::{Job, Settings};
use lwc_base::{
    MOST_IMAGE_BYTES, MOST_REQUEST_FILE_BYTES, MOST_SCHEDULE_BYTES, MOST_SOURCE_BYTES, MOST_STEPS,
    Requests,
};
use lwc_io::Files;
use lwc_text::{InputRule, Schedule, read_requests, read_schedule_within};
use std::alloc::Global;

/// The image in the file of that name, whose pages fit the frames, or the end of the call without it.
pub fn fitting_image_in<'a, F: Files>(
    alloc: Global,
    files: &mut F,
    name: &'a str,
    frames: u32,
) -> Result<Image, Ending<'a>>
    ensures reads { ReadsBy (fitting_image_of frames) (F.seen files.old) (F.seen files.new) name.now
        (found (λ image. image) result) }
    ensures limits { IfOk result IsImage }
    ensures fits { IfOk result (λ image. length image.pages ≤ frames) }
    ensures same { (F.seen files.new).contents ≡ (F.seen files.old).contents }
    ensures fetches { Fetched (ReadsOnward name.now MOST_IMAGE_BYTES)
        (F.seen files.old).fetches (F.seen files.new).fetches }
    ensures whole { OnOk result (Fetched (ReadsToTheEnd name.now MOST_IMAGE_BYTES)
        (F.seen files.old).fetches (F.seen files.new).fetches) }
{
    let image = image_in(alloc, files, name)?;
    let pages = image.pages.len() as u32;
    if frames < pages {
        return Err(Ending::Refused(Rejection::TooLarge { pages, frames }));
    }
    Ok(image)
}

/// The image in the file of that name, or the end of the call without it.
pub fn image_in<'a, F: Files>(
    alloc: Global,
    files: &mut F,
    name: &'a str,
) -> Result<Image, Ending<'a>>
    ensures reads { ReadsBy image_of (F.seen files.old) (F.seen files.new) name.now
        (found (λ image. image) result) }
    ensures limits { IfOk result IsImage }
    ensures same { (F.seen files.new).contents ≡ (F.seen files.old).contents }
    ensures fetches { Fetched (ReadsOnward name.now MOST_IMAGE_BYTES)
        (F.seen files.old).fetches (F.seen files.new).fetches }
    ensures whole { OnOk result (Fetched (ReadsToTheEnd name.now MOST_IMAGE_BYTES)
        (F.seen files.old).fetches (F.seen files.new).fetches) }
{
    let too_long = Rejection::Image {
        rule: ImageRule::TooLong,
        at: MOST_IMAGE_BYTES as u64,
    };
    let bytes = bytes_in(alloc, files, name, MOST_IMAGE_BYTES, too_long)?;
    Ok(read_image(alloc, &bytes)?)
}

/// The image of the source in the file of that name, or the end of the call without it.
pub fn source_in<'a, F: Files>(
    alloc: Global,
    files: &mut F,
    name: &'a str,
) -> Result<Image, Ending<'a>>
    ensures reads { ReadsBy source_of (F.seen files.old) (F.seen files.new) name.now
        (found (λ image. image) result) }
    ensures limits { IfOk result IsImage }
    ensures same { (F.seen files.new).contents ≡ (F.seen files.old).contents }
    ensures fetches { Fetched (ReadsOnward name.now MOST_SOURCE_BYTES)
        (F.seen files.old).fetches (F.seen files.new).fetches }
    ensures whole { OnOk result (Fetched (ReadsToTheEnd name.now MOST_SOURCE_BYTES)
        (F.seen files.old).fetches (F.seen files.new).fetches) }
{
    let too_long = Rejection::Source {
        rule: SourceRule::TooLong,
        at: MOST_SOURCE_BYTES as u64,
    };
    let bytes = bytes_in(alloc, files, name, MOST_SOURCE_BYTES, too_long)?;
    Ok(assemble(alloc, &bytes)?)
}

/// The schedule in the file of that name for a number of threads, of at most this number of steps, or the end
/// of the call without it.
pub fn schedule_in<'a, F: Files>(
    alloc: Global,
    files: &mut F,
    name: &'a str,
    threads: u32,
    most: u32,
) -> Result<Schedule, Ending<'a>>
    requires { most ≤ MOST_STEPS }
    ensures reads { ReadsBy (schedule_of threads most) (F.seen files.old) (F.seen files.new) name.now
        (found (λ steps. steps) result) }
    ensures there { IfOk result (λ steps. All (λ t. t < threads) steps) }
    ensures short { IfOk result (λ steps. length steps ≤ most) }
    ensures same { (F.seen files.new).contents ≡ (F.seen files.old).contents }
    ensures fetches { Fetched (ReadsOnward name.now MOST_SCHEDULE_BYTES)
        (F.seen files.old).fetches (F.seen files.new).fetches }
    ensures whole { OnOk result (Fetched (ReadsToTheEnd name.now MOST_SCHEDULE_BYTES)
        (F.seen files.old).fetches (F.seen files.new).fetches) }
{
    let too_long = too_long_input(MOST_SCHEDULE_BYTES);
    let bytes = bytes_in(alloc, files, name, MOST_SCHEDULE_BYTES, too_long)?;
    Ok(read_schedule_within(alloc, &bytes, threads, most)?)
}

/// The requests in the file of that name, or the end of the call without them.
pub fn requests_in<'a, F: Files>(
    alloc: Global,
    files: &mut F,
    name: &'a str,
) -> Result<Requests, Ending<'a>>
    ensures reads { ReadsBy requests_of (F.seen files.old) (F.seen files.new) name.now
        (found (λ requests. requests) result) }
    ensures limits { IfOk result AreRequests }
    ensures same { (F.seen files.new).contents ≡ (F.seen files.old).contents }
    ensures fetches { Fetched (ReadsOnward name.now MOST_REQUEST_FILE_BYTES)
        (F.seen files.old).fetches (F.seen files.new).fetches }
    ensures whole { OnOk result (Fetched (ReadsToTheEnd name.now MOST_REQUEST_FILE_BYTES)
        (F.seen files.old).fetches (F.seen files.new).fetches) }
{
    let too_long = too_long_input(MOST_REQUEST_FILE_BYTES);
    let bytes = bytes_in(alloc, files, name, MOST_REQUEST_FILE_BYTES, too_long)?;
    Ok(read_requests(alloc, &bytes)?)
}

/// The requests in the file of that name, whose serve takes no more steps than there may be, or the end
/// of the call without them.
pub fn bounded_requests_in<'a, F: Files>(
    alloc: Global,
    files: &mut F,
    name: &'a str,
    settings: &Settings,
) -> Result<Requests, Ending<'a>>
    requires { IsSettings settings.now }
    ensures reads { ReadsBy (bounded_requests_of settings.now) (F.seen files.old) (F.seen files.new) name.now
        (found (λ requests. requests) result) }
    ensures limits { IfOk result AreRequests }
    ensures few { IfOk result (λ requests. serve_steps settings.now (length requests) ≤ MOST_STEPS) }
    ensures same { (F.seen files.new).contents ≡ (F.seen files.old).contents }
    ensures fetches { Fetched (ReadsOnward name.now MOST_REQUEST_FILE_BYTES)
        (F.seen files.old).fetches (F.seen files.new).fetches }
    ensures whole { OnOk result (Fetched (ReadsToTheEnd name.now MOST_REQUEST_FILE_BYTES)
        (F.seen files.old).fetches (F.seen files.new).fetches) }
{
    let too_long = too_long_input(MOST_REQUEST_FILE_BYTES);
    let bytes = bytes_in(alloc, files, name, MOST_REQUEST_FILE_BYTES, too_long)?;
    let requests = read_requests(alloc, &bytes)?;
    if MOST_STEPS < most_steps(settings, requests.len()) {
        return Err(Ending::Refused(Rejection::Input {
            rule: InputRule::TooMuchWork,
            at: bytes.len() as u64,
        }));
    }
    Ok(requests)
}

/// The most steps of a serve of this number of requests.
pub fn most_steps(settings: &Settings, requests: usize) -> u32
    requires settings { IsSettings settings.now }
    requires few { requests ≤ MOST_REQUESTS }
    ensures { result ≡ serve_steps settings.now requests }
{
    let workers = match settings.job {
        Job::Run => 0,
        Job::Serve { workers } => workers,
    };
    requests as u32 * (settings.budget + 1) + workers
}

/// The bytes of the file of that name, or the end of the call without them: a file of more bytes than the
/// limit is rejected by `too_long`.
pub fn bytes_in<'a, F: Files>(
    alloc: Global,
    files: &mut F,
    name: &'a str,
    limit: usize,
    too_long: Rejection,
) -> Result<Vec<u8>, Ending<'a>>
    requires { limit < 2 ^ 32 }
    ensures reads { ReadsBy (within_limit limit too_long) (F.seen files.old) (F.seen files.new) name.now
        (found (λ bytes. bytes.items) result) }
    ensures same { (F.seen files.new).contents ≡ (F.seen files.old).contents }
    ensures fetches { Fetched (ReadsOnward name.now limit)
        (F.seen files.old).fetches (F.seen files.new).fetches }
    ensures whole { OnOk result (Fetched (ReadsToTheEnd name.now limit)
        (F.seen files.old).fetches (F.seen files.new).fetches) }
{
    match read_whole(alloc, files, name, limit) {
        Ok(bytes) => Ok(bytes),
        Err(FetchError::OutOfMemory) => Err(Ending::NoMemory),
        Err(FetchError::Failed) => Err(Ending::Unread(name)),
        Err(FetchError::TooLong) => Err(Ending::Refused(too_long)),
    }
}

/// The rejection of a schedule, of requests, of a vault or of a script with more bytes than this.
pub fn too_long_input(limit: usize) -> Rejection
    ensures { result ≡ Rejection.Input InputRule.TooLong limit }
{
    Rejection::Input {
        rule: InputRule::TooLong,
        at: limit as u64,
    }
}
