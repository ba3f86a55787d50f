//! A run that the caller keeps as a value: what it is opened with, and its steps so far.

ghost use Rattle.std.specs.Prelude.{◌≡◌, ◌<◌, ◌≤◌, [], All, IfErr, IfOk, IsTrue, Ok, length};
ghost use Rattle.guest_image.specs.Limits.{IsImage};
ghost use Rattle.guest_image.specs.Reading.{image_at};
ghost use Rattle.kernel_core.specs.Kernel.{AreRequests, MayHave, opened};
ghost use Rattle.kernel_core.specs.Runs.{kept};
ghost use Rattle.kernel_core.specs.Settings.{IsJob, IsSettings};
ghost use Rattle.kernel_core.specs.Start.{inputs_of, start};
ghost use Rattle.lwc_types.specs.declared.limits.TheConstants.{MOST_STEPS};
ghost use Rattle.lwc_text.specs.Requests.{requests_at};
ghost use Rattle.run_views.specs.Runs.{
  AreRequestsOf,
  IsAt,
  IsOpenedBy,
  MayRefuse,
  job_for,
  run_error_number,
  settings_of,
};

use guest_image::{Image, ImageFault, read_image};
use kernel_core::{Job, Kernel, OpenFault, Settings};
use lwc_base::{MOST_BUDGET, MOST_FRAMES, MOST_STEPS, MOST_THREADS, Requests};
use lwc_text::{InputFault, Schedule, make_steps, read_requests};
use std::alloc::Global;
use world_face::World;

/// A run so far: the bytes of its image and of its requests, the steps that were asked for, each the number of the
/// thread that makes it, and its settings. With no workers it is a run, which has no requests.
#[repr(C)]
#[derive(Clone, Copy)]
pub struct Run<'a> {
    pub image: &'a [u8],
    pub requests: &'a [u8],
    pub steps: &'a [u8],
    pub frames: u32,
    pub budget: u32,
    pub workers: u32,
}

/// Why nothing can be seen of a run.
#[derive(Clone, Copy, PartialEq, Eq)]
pub enum RunError {
    OutOfMemory,
    /// The image is not in its grammar or limits.
    Image,
    /// The requests are not in their grammar or limits, or there are some and no workers.
    Requests,
    /// The image has more pages than there are frames.
    TooLarge,
    /// A setting is not within its limits.
    Settings,
    /// There are too many steps, or one is of a thread that the run does not have.
    Steps,
    /// What was asked for is not there.
    Missing,
    /// The buffer does not have the length of what goes into it.
    Length,
}

impl RunError {
    /// The number that the caller gets. Those of the exit status of the program stand for the same.
    pub fn number(self) -> u32
        ensures { result ≡ run_error_number self }
    {
        match self {
            RunError::OutOfMemory => 1,
            RunError::Image => 5,
            RunError::Requests => 6,
            RunError::TooLarge => 7,
            RunError::Settings => 10,
            RunError::Steps => 11,
            RunError::Missing => 12,
            RunError::Length => 13,
        }
    }
}

impl Run<'_> {
    /// A kernel where this run is.
    pub fn kernel<W: World>(&self, alloc: Global) -> Result<Kernel<W>, RunError>
        ensures kernel { IfOk result (λ kernel. IsAt self.now kernel) }
        ensures refused { IfErr result (MayRefuse self.now) }
    {
        let steps = self.step_count()?;
        let settings = self.settings()?;
        let image = self.image_in(alloc)?;
        let requests = self.requests_in(alloc, settings.job)?;
        let kernel = self.opened(alloc, &image, requests, steps, &settings)?;
        self.after_steps(alloc, kernel)
    }

    /// A kernel at the start of this run, with room for this number of steps.
    fn opened<W: World>(
        &self,
        alloc: Global,
        image: &Image,
        requests: Requests,
        steps: u32,
        settings: &Settings,
    ) -> Result<Kernel<W>, RunError>
        requires image { IsImage image.now }
        requires settings { IsSettings settings.now }
        requires requests { MayHave settings.now.job requests }
        requires steps { steps ≤ MOST_STEPS }
        requires read { image_at self.now.image.now ≡ Ok image.now }
        requires frames { settings.now.frames ≡ self.now.frames }
        ensures opened { IfOk result (λ kernel. kernel
            ≡ opened (inputs_of image.now requests settings.now) steps) }
        ensures refused { IfErr result (MayRefuse self.now) }
    {
        match Kernel::open(alloc, image, requests, steps, settings) {
            Ok(kernel) => Ok(kernel),
            Err(OpenFault::OutOfMemory) => Err(RunError::OutOfMemory),
            Err(OpenFault::ImageTooLarge { .. }) => Err(RunError::TooLarge),
        }
    }

    /// The kernel after the steps.
    fn after_steps<W: World>(
        &self,
        alloc: Global,
        mut kernel: Kernel<W>,
    ) -> Result<Kernel<W>, RunError>
        requires fresh { kernel.steps ≡ [] }
        requires room { kernel.room ≡ length self.now.steps.now }
        requires few { length self.now.steps.now ≤ MOST_STEPS }
        requires opened { IsOpenedBy self.now kernel.inputs }
        ensures inputs { IfOk result (λ after. after.inputs ≡ kernel.inputs) }
        ensures steps { IfOk result (λ after. after.steps ≡ kept (start kernel.inputs) self.now.steps.now) }
        ensures refused { IfErr result (MayRefuse self.now) }
    {
        if !are_below(self.steps, kernel.thread_count()) {
            return Err(RunError::Steps);
        }
        let Ok(steps) = Vec::from_slice(alloc, self.steps) else {
            return Err(RunError::OutOfMemory);
        };
        match make_steps(&mut kernel, &Schedule::of(steps)) {
            Ok(()) => Ok(kernel),
            Err(_) => Err(RunError::OutOfMemory),
        }
    }

    /// The number of steps that were asked for, where they are not too many.
    fn step_count(&self) -> Result<u32, RunError>
        ensures count { IfOk result (λ count. count ≡ length self.now.steps.now) }
        ensures few { IfOk result (λ count. count ≤ MOST_STEPS) }
        ensures refused { IfErr result (MayRefuse self.now) }
    {
        if self.steps.len() > MOST_STEPS as usize {
            return Err(RunError::Steps);
        }
        Ok(self.steps.len() as u32)
    }

    /// The settings, where they are within their limits.
    fn settings(&self) -> Result<Settings, RunError>
        ensures settings { IfOk result (λ settings. settings ≡ settings_of self.now) }
        ensures limits { IfOk result IsSettings }
        ensures refused { IfErr result (MayRefuse self.now) }
    {
        if !is_within(self.frames, MOST_FRAMES) || !is_within(self.budget, MOST_BUDGET) {
            return Err(RunError::Settings);
        }
        Ok(Settings {
            frames: self.frames,
            budget: self.budget,
            job: self.job()?,
        })
    }

    /// What the workers are for.
    fn job(&self) -> Result<Job, RunError>
        ensures job { IfOk result (λ job. job ≡ job_for self.now.workers) }
        ensures limits { IfOk result IsJob }
        ensures refused { IfErr result (λ error.
            (error ≡ RunError.Settings) × (IsJob (job_for self.now.workers) → ⊥)) }
    {
        match self.workers {
            0 => Ok(Job::Run),
            workers if workers <= MOST_THREADS => Ok(Job::Serve { workers }),
            _ => Err(RunError::Settings),
        }
    }

    /// The image.
    fn image_in(&self, alloc: Global) -> Result<Image, RunError>
        ensures image { IfOk result (λ image. image_at self.now.image.now ≡ Ok image) }
        ensures limits { IfOk result IsImage }
        ensures refused { IfErr result (MayRefuse self.now) }
    {
        match read_image(alloc, self.image) {
            Ok(image) => Ok(image),
            Err(ImageFault::OutOfMemory) => Err(RunError::OutOfMemory),
            Err(ImageFault::Refused { .. }) => Err(RunError::Image),
        }
    }

    /// The requests of a job.
    fn requests_in(&self, alloc: Global, job: Job) -> Result<Requests, RunError>
        requires job { job ≡ job_for self.now.workers }
        ensures requests { IfOk result (λ requests. AreRequestsOf job self.now.requests.now requests) }
        ensures limits { IfOk result (λ requests. MayHave job requests) }
        ensures refused { IfErr result (MayRefuse self.now) }
    {
        match job {
            Job::Run if self.requests.is_empty() => Ok(Requests::of(Vec::new(alloc))),
            Job::Run => Err(RunError::Requests),
            Job::Serve { .. } => self.requests_of_serve(alloc),
        }
    }

    /// The requests of a serve.
    fn requests_of_serve(&self, alloc: Global) -> Result<Requests, RunError>
        requires serves { 1 ≤ self.now.workers }
        ensures requests { IfOk result (λ requests. requests_at self.now.requests.now ≡ Ok requests) }
        ensures limits { IfOk result AreRequests }
        ensures refused { IfErr result (MayRefuse self.now) }
    {
        match read_requests(alloc, self.requests) {
            Ok(requests) => Ok(requests),
            Err(InputFault::OutOfMemory) => Err(RunError::OutOfMemory),
            Err(InputFault::Refused { .. }) => Err(RunError::Requests),
        }
    }
}

/// Whether a number is 1 or more, and at most this one.
fn is_within(number: u32, most: u32) -> bool
    ensures within { IsTrue result → (1 ≤ number) × (number ≤ most) }
    ensures only { (1 ≤ number) × (number ≤ most) → IsTrue result }
{
    1 <= number && number <= most
}

/// Whether all of these are below a number.
fn are_below(steps: &[u8], end: u32) -> bool
    ensures below { IsTrue result → All (λ t. t < end) steps.now }
    ensures only { All (λ t. t < end) steps.now → IsTrue result }
{
    steps.iter().all(|t| u32::from(*t) < end)
}
