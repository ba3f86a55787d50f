//! The debugger.

ghost use Rattle.std.specs.Prelude.{◌≡◌, ◌+◌, ◌≤◌, ◌<◌, ◌⊎◌, ℕ, All, Err, IfErr, IfOk, IfSome, MatchOption, OnOk, []};
ghost use Rattle.std.specs.Prelude.{length};
ghost use Rattle.std.specs.Prelude.{map, nat_lt, take, true};
ghost use Rattle.std.specs.List.{flat_map};
ghost use Rattle.std.specs.Option.{option_map_or};
ghost use Rattle.guest_image.specs.Limits.{IsImage};
ghost use Rattle.kernel_core.specs.Histories.{IsLegal};
ghost use Rattle.kernel_core.specs.Kernel as kernel;
ghost use Rattle.kernel_core.specs.Kernel.{machine_of};
ghost use Rattle.kernel_core.specs.Runs.{kept};
ghost use Rattle.kernel_core.specs.Settings.{IsSettings};
ghost use Rattle.kernel_core.specs.Start.{inputs_of, start, thread_count};
ghost use Rattle.kernel_core.specs.declared.settings.Job.TheVariants as jobs;
ghost use Rattle.lwc_types.specs.declared.limits.TheConstants.{MOST_STEPS};
ghost use Rattle.lwc_debug.specs.Telling as telling;
ghost use Rattle.lwc_debug.specs.Telling.{told_by, told_here};
ghost use Rattle.lwc_debug.specs.Transcript.{transcript, transcript_of_schedule};

use crate::answering::answer;
use crate::command::{Command, Script};
use crate::moving::place_after;
use guest_image::Image;
use kernel_core::{Kernel, OpenFault, Settings};
use lwc_base::{OutOfMemory, Requests};
use lwc_text::{Schedule, make_steps};
use std::alloc::Global;
use world_face::World;

/// The most steps of a schedule that is debugged.
pub const MOST_DEBUGGED_STEPS: u32 = 100000;

/// A command, the place where it is given, and what it is answered, once that is known.
#[derive(Drop)]
pub(crate) struct Answer {
    pub command: Command,
    pub place: usize,
    pub text: Vec<u8>,
}

/// The answers to a script's commands in the run of the steps that are kept of a schedule
/// (`transcript_of_schedule`). It makes the steps twice, whatever the script: once for their number, from which
/// the place of each command follows, and once to answer each command at its place.
///
/// # Errors
///
/// `ImageTooLarge` exactly where the image has more pages than there are frames, which is tested before
/// memory is taken; or `OutOfMemory`.
#[tactic(auto, unfolding(crate::specs::Transcript::transcript_of_schedule))]
pub fn debug<W: World>(
    alloc: Global,
    image: &Image,
    schedule: &Schedule,
    script: &Script,
    settings: &Settings,
) -> Result<Vec<u8>, OpenFault>
    requires image { IsImage image.now }
    requires settings { IsSettings settings.now }
    requires run { settings.now.job ≡ jobs.Run }
    requires threads { All (λ t. t < length image.now.entries) schedule.now }
    ensures text { IfOk result (λ text. text.items
        ≡ transcript_of_schedule (inputs_of image.now [] settings.now) schedule.now script.now) }
    ensures too_large { settings.now.frames < length image.now.pages →
        result ≡ Err (OpenFault.ImageTooLarge (length image.now.pages) settings.now.frames) }
    ensures fits { length image.now.pages ≤ settings.now.frames →
        IfErr result (λ fault. fault ≡ OpenFault.OutOfMemory) }
{
    let steps = steps_of_run::<W>(alloc, image, schedule, settings)?;
    answers_of_run::<W>(alloc, image, steps.as_slice(), script, settings)
}

/// The steps that are kept of a schedule in a run of the image.
fn steps_of_run<W: World>(
    alloc: Global,
    image: &Image,
    schedule: &Schedule,
    settings: &Settings,
) -> Result<Vec<u8>, OpenFault>
    requires image { IsImage image.now }
    requires settings { IsSettings settings.now }
    requires run { settings.now.job ≡ jobs.Run }
    requires threads { All (λ t. t < length image.now.entries) schedule.now }
    ensures kept { IfOk result (λ steps. steps.items
        ≡ kept (start (inputs_of image.now [] settings.now)) schedule.now) }
    ensures legal { IfOk result (λ steps. IsLegal (start (inputs_of image.now [] settings.now)) steps.items) }
    ensures threads { IfOk result (λ steps. All (λ t. t < length image.now.entries) steps.items) }
    ensures few { IfOk result (λ steps. length steps.items ≤ MOST_STEPS) }
    ensures too_large { settings.now.frames < length image.now.pages →
        result ≡ Err (OpenFault.ImageTooLarge (length image.now.pages) settings.now.frames) }
    ensures fits { length image.now.pages ≤ settings.now.frames →
        IfErr result (λ fault. fault ≡ OpenFault.OutOfMemory) }
{
    let mut kernel = opened::<W>(alloc, image, schedule.len(), settings)?;
    let steps = kept_steps(alloc, &mut kernel, schedule);
    // Let go here, once for both ways out.
    drop(kernel);
    match steps {
        Ok(steps) => Ok(steps),
        Err(_) => Err(OpenFault::OutOfMemory),
    }
}

/// The answers to a script's commands in the run of the image that these steps make.
fn answers_of_run<W: World>(
    alloc: Global,
    image: &Image,
    steps: &[u8],
    script: &Script,
    settings: &Settings,
) -> Result<Vec<u8>, OpenFault>
    requires image { IsImage image.now }
    requires settings { IsSettings settings.now }
    requires run { settings.now.job ≡ jobs.Run }
    requires few { length steps.now ≤ MOST_STEPS }
    requires threads { All (λ t. t < length image.now.entries) steps.now }
    requires legal { IsLegal (start (inputs_of image.now [] settings.now)) steps.now }
    ensures text { IfOk result (λ text. text.items
        ≡ transcript (start (inputs_of image.now [] settings.now)) steps.now 0 script.now) }
    ensures too_large { settings.now.frames < length image.now.pages →
        result ≡ Err (OpenFault.ImageTooLarge (length image.now.pages) settings.now.frames) }
    ensures fits { length image.now.pages ≤ settings.now.frames →
        IfErr result (λ fault. fault ≡ OpenFault.OutOfMemory) }
{
    let mut kernel = opened::<W>(alloc, image, steps.len(), settings)?;
    let text = answers(alloc, &mut kernel, steps, script);
    // Let go here, once for both ways out.
    drop(kernel);
    match text {
        Ok(text) => Ok(text),
        Err(_) => Err(OpenFault::OutOfMemory),
    }
}

/// A kernel at the start of a run of the image, with room for this number of steps.
#[tactic(auto, unfolding(kernel_core::specs::Start::thread_count))]
fn opened<W: World>(
    alloc: Global,
    image: &Image,
    steps: usize,
    settings: &Settings,
) -> Result<Kernel<W>, OpenFault>
    requires image { IsImage image.now }
    requires settings { IsSettings settings.now }
    requires run { settings.now.job ≡ jobs.Run }
    requires few { steps ≤ MOST_STEPS }
    ensures opened { IfOk result (λ k. k ≡ kernel.opened (inputs_of image.now [] settings.now) steps) }
    ensures threads { IfOk result (λ k. thread_count k.inputs ≡ length image.now.entries) }
    ensures too_large { settings.now.frames < length image.now.pages →
        result ≡ Err (OpenFault.ImageTooLarge (length image.now.pages) settings.now.frames) }
    ensures fits { length image.now.pages ≤ settings.now.frames →
        IfErr result (λ fault. fault ≡ OpenFault.OutOfMemory) }
{
    let requests = Requests::of(Vec::new(alloc));
    Kernel::open(alloc, image, requests, steps as u32, settings)
}

/// The steps that a kernel keeps of a schedule, which it makes.
#[tactic(auto, using(crate::proofs::Legal::keeping))]
fn kept_steps<W: World>(
    alloc: Global,
    kernel: &mut Kernel<W>,
    schedule: &Schedule,
) -> Result<Vec<u8>, OutOfMemory>
    requires fresh { kernel.old.steps ≡ [] }
    requires room { kernel.old.room ≡ length schedule.now }
    requires threads { All (λ t. t < thread_count kernel.old.inputs) schedule.now }
    ensures kept { IfOk result (λ steps. steps.items ≡ kept (start kernel.old.inputs) schedule.now) }
    ensures legal { IfOk result (λ steps. IsLegal (start kernel.old.inputs) steps.items) }
    ensures threads { IfOk result (λ steps. All (λ t. t < thread_count kernel.old.inputs) steps.items) }
    ensures few { IfOk result (λ steps. length steps.items ≤ length schedule.now) }
{
    make_steps(kernel, schedule)?;
    Ok(Vec::from_slice(alloc, kernel.schedule())?)
}

/// The answers to a script's commands in the run of these steps, which are made once, and no further than to
/// the last place of a command.
fn answers<W: World>(
    alloc: Global,
    kernel: &mut Kernel<W>,
    steps: &[u8],
    script: &Script,
) -> Result<Vec<u8>, OutOfMemory>
    requires fresh { kernel.old.steps ≡ [] }
    requires room { kernel.old.room ≡ length steps.now }
    requires threads { All (λ t. t < thread_count kernel.old.inputs) steps.now }
    requires legal { IsLegal (start kernel.old.inputs) steps.now }
    ensures { IfOk result (λ text. text.items ≡ transcript (start kernel.old.inputs) steps.now 0 script.now) }
{
    let mut answers = placed(alloc, script, steps.len())?;
    let mut from = 0;
    'places: while let Some(place) = next_place(answers.as_slice(), from) {
        go_on(kernel, steps, place)?;
        answer_here(kernel, steps.len(), place, &mut answers)?;
        from = place + 1;
    }
    let text = joined(alloc, answers.as_slice())?;
    Ok(text)
}

/// The commands of a script, each at its place of this number of steps and one more, before any is answered.
fn placed(alloc: Global, script: &Script, count: usize) -> Result<Vec<Answer>, OutOfMemory>
    ensures { IfOk result (λ answers. map told_by answers.items ≡ telling.placed count 0 script.now) }
{
    let mut answers = Vec::with_capacity(alloc, script.len())?;
    let mut place = 0;
    'commands: for i in 0..script.len() {
        let command = script.get(i);
        answers.push(Answer {
            command,
            place,
            text: Vec::new(alloc),
        })?;
        place = place_after(count, place, command);
    }
    Ok(answers)
}

/// The first place from here on at which a command is given.
fn next_place(answers: &[Answer], from: usize) -> Option<usize>
    ensures next { MatchOption result (All (λ a. a.place < from) answers.now)
        (λ next. All (λ a. (a.place < from) ⊎ (next ≤ a.place)) answers.now) }
    ensures onward { IfSome result (λ next. from ≤ next) }
    ensures there { (most : ℕ) → All (λ a. a.place ≤ most) answers.now → IfSome result (λ next. next ≤ most) }
{
    let mut next = None;
    'answers: for answer in answers {
        if from <= answer.place && is_before(answer.place, next) {
            next = Some(answer.place);
        }
    }
    next
}

/// Whether a place is before another one, if there is another.
fn is_before(place: usize, other: Option<usize>) -> bool
    ensures { result ≡ option_map_or (λ n. nat_lt place n) other true }
{
    match other {
        Some(other) => place < other,
        None => true,
    }
}

/// Makes the steps up to a place.
fn go_on<W: World>(kernel: &mut Kernel<W>, steps: &[u8], place: usize) -> Result<(), OutOfMemory>
    requires threads { All (λ t. t < thread_count kernel.old.inputs) steps.now }
    requires legal { IsLegal (start kernel.old.inputs) steps.now }
    requires there { place ≤ length steps.now }
    requires before { kernel.old.steps ≡ take (length kernel.old.steps) steps.now }
    requires onward { length kernel.old.steps ≤ place }
    requires room { kernel.old.room + length kernel.old.steps ≡ length steps.now }
    ensures inputs { OnOk result (kernel.new.inputs ≡ kernel.old.inputs) }
    ensures steps { OnOk result (kernel.new.steps ≡ take place steps.now) }
    ensures room { OnOk result (kernel.new.room + place ≡ length steps.now) }
{
    'steps: for i in kernel.schedule().len()..place {
        kernel.make_step(u32::from(steps[i]), None)?;
    }
    Ok(())
}

/// Answers the commands that are given at the kernel's place, one of this number of steps and one more.
fn answer_here<W: World>(
    kernel: &Kernel<W>,
    count: usize,
    place: usize,
    answers: &mut [Answer],
) -> Result<(), OutOfMemory>
    requires { place ≤ count }
    ensures { OnOk result (map told_by answers.new
        ≡ map (told_here (machine_of kernel.now) count place) (map told_by answers.old)) }
{
    'answers: for i in 0..answers.len() {
        if answers[i].place == place {
            let command = answers[i].command;
            answer(&mut answers[i].text, kernel, count, place, command)?;
        }
    }
    Ok(())
}

/// The texts of all answers, in order.
fn joined(alloc: Global, answers: &[Answer]) -> Result<Vec<u8>, OutOfMemory>
    ensures { IfOk result (λ text. text.items ≡ flat_map (λ a. a.text.items) answers.now) }
{
    let mut text = Vec::new(alloc);
    'answers: for answer in answers {
        text.extend_from_slice(answer.text.as_slice())?;
    }
    Ok(text)
}
