ghost use Rattle.std.specs.Prelude.{◌≡◌, ◌≢◌, ◌≤◌, ◌↔◌, None, Some, map, IfErr, IfOk, IfSome, string_bytes};
ghost use Rattle.std.specs.Prelude.{[], unwrap_or};
ghost use Rattle.std.specs.Option.{option_map};
ghost use Rattle.kernel_core.specs.Settings.{IsJob, IsSettings};
ghost use Rattle.lwc_types.specs.declared.limits.TheConstants.{MOST_BUDGET, MOST_FRAMES, MOST_THREADS};
ghost use Rattle.lwcrun_line.specs.Arguments.{arguments_in};
ghost use Rattle.lwcrun_line.specs.Lines as spec;
ghost use Rattle.lwcrun_line.specs.Lines.{AreGivenBy, AreRunSettings, AreServeSettings, IsGivenBy};
ghost use Rattle.lwcrun_line.specs.Lines.{IsWithinLimits, asked_by, command_of};
ghost use Rattle.lwcrun_line.specs.Modes.{row_of};

use crate::arguments::{Arguments, parse_words};
use crate::mode::{Mode, Options, mode_called, row_of};
use crate::numbers::number_within;
use kernel_core::{Job, Settings};
use lwc_base::{MOST_BUDGET, MOST_FRAMES, MOST_THREADS};
use std::alloc::Global;

/// What a line asks for.
#[derive(Drop)]
pub enum Line {
    /// An image under a schedule, and a serve where there are requests, each a file by its name.
    Replay {
        image: String,
        schedule: String,
        requests: Option<String>,
        settings: Settings,
    },
    /// The run of an image, a file by its name.
    Run {
        image: String,
        settings: Settings,
    },
    /// The serve of requests by an image, each a file by its name.
    Serve {
        image: String,
        requests: String,
        settings: Settings,
    },
    /// The image of a source, a file by its name.
    Asm {
        source: String,
    },
    /// The source of an image, a file by its name.
    Dis {
        image: String,
    },
    /// The serve that is generated from a number, 1 to 100.
    Gen {
        number: u32,
    },
    /// The lifted image of an image, a file by its name.
    Lift {
        image: String,
    },
    /// An image under a schedule, each a file by its name; its contexts may be trapped.
    Monitor {
        image: String,
        schedule: String,
        settings: Settings,
    },
    /// An image under a schedule, each a file by its name; its contexts may be trapped and guarded.
    Guard {
        image: String,
        schedule: String,
        settings: Settings,
    },
    /// An image beside a vault under a schedule, each a file by its name.
    Vault {
        image: String,
        vault: String,
        schedule: String,
        settings: Settings,
    },
    /// An image under a schedule, of whose run a script is answered, each a file by its name.
    Debug {
        image: String,
        schedule: String,
        script: String,
        settings: Settings,
    },
    /// The serve of requests by an image, each a file by its name, in which each reply is written as soon as it and
    /// all earlier ones are there.
    Stream {
        image: String,
        requests: String,
        settings: Settings,
    },
}

/// Why a line was not read.
#[derive(Clone, Copy, PartialEq, Eq)]
pub enum LineFault {
    OutOfMemory,
    /// The line is not accepted.
    Usage,
}

/// A mode, and what its options say.
#[derive(Clone, Copy)]
struct Choice {
    mode: Mode,
    settings: Settings,
    number: u32,
}

/// The number of frames of a line that asks for none.
const DEFAULT_FRAMES: u32 = 4096;

/// The budget of a line that asks for none.
const DEFAULT_BUDGET: u32 = 10000;

/// The number of workers of a line that asks for none.
const DEFAULT_WORKERS: u32 = 4;

/// What the words ask for, the program's name first.
///
/// # Errors
///
/// `Usage` exactly where the line is not accepted, unless memory runs out before that is known.
#[tactic(auto, unfolding(crate::specs::Lines::command_of))]
pub fn read_line(alloc: Global, words: &[String]) -> Result<Line, LineFault>
    ensures accepted { IfOk result (λ line. command_of (map string_bytes words.now) ≡ Some (asked_by line)) }
    ensures limits { IfOk result (λ line. IsWithinLimits (asked_by line)) }
    ensures usage { (result ≡ Err LineFault.Usage)
        ↔ ((result ≢ Err LineFault.OutOfMemory) × (command_of (map string_bytes words.now) ≡ None)) }
{
    let arguments = parse_words(alloc, words)?;
    match arguments.mode {
        Some(word) => line_in(alloc, word, &arguments),
        None => Err(LineFault::Usage),
    }
}

/// What the arguments behind a mode's word ask for.
fn line_in(alloc: Global, word: &str, arguments: &Arguments<'_>) -> Result<Line, LineFault>
    ensures accepted { IfOk result (λ line.
        spec.asked_in word.now (arguments_in arguments.now) ≡ Some (asked_by line)) }
    ensures limits { IfOk result (λ line. IsWithinLimits (asked_by line)) }
    ensures usage { result ≡ Err LineFault.Usage
        → spec.asked_in word.now (arguments_in arguments.now) ≡ None }
{
    let chosen = choice_in(word, arguments).ok_or(LineFault::Usage)?;
    let first = text_of(alloc, arguments.first)?;
    let second = text_of(alloc, arguments.second)?;
    let third = text_of(alloc, arguments.third)?;
    Ok(line_with(chosen, first, second, third))
}

/// The line of a mode with these words behind it, those that are not there empty.
fn line_with(chosen: Choice, first: String, second: String, third: String) -> Line
    requires settings { AreGivenBy (row_of chosen.mode).options chosen.settings }
    requires number { IsGivenBy (row_of chosen.mode).options chosen.number }
    ensures asked { asked_by result ≡ spec.command_with chosen.mode (string_bytes first) (string_bytes second)
        (string_bytes third) chosen.settings chosen.number }
    ensures limits { IsWithinLimits (asked_by result) }
{
    let Choice {
        mode,
        settings,
        number,
    } = chosen;
    match mode {
        Mode::Replay => Line::Replay {
            image: first,
            schedule: second,
            requests: None,
            settings,
        },
        Mode::ReplayServe => Line::Replay {
            image: first,
            schedule: second,
            requests: Some(third),
            settings,
        },
        Mode::Run => Line::Run {
            image: first,
            settings,
        },
        Mode::Serve => Line::Serve {
            image: first,
            requests: second,
            settings,
        },
        Mode::Asm => Line::Asm { source: first },
        Mode::Dis => Line::Dis { image: first },
        Mode::Gen => Line::Gen { number },
        Mode::Lift => Line::Lift { image: first },
        Mode::Monitor => Line::Monitor {
            image: first,
            schedule: second,
            settings,
        },
        Mode::Guard => Line::Guard {
            image: first,
            schedule: second,
            settings,
        },
        Mode::Vault => Line::Vault {
            image: first,
            vault: second,
            schedule: third,
            settings,
        },
        Mode::Debug => Line::Debug {
            image: first,
            schedule: second,
            script: third,
            settings,
        },
        Mode::Stream => Line::Stream {
            image: first,
            requests: second,
            settings,
        },
    }
}

/// The mode of a word and of the words behind it, and what its options say.
fn choice_in(word: &str, arguments: &Arguments<'_>) -> Option<Choice>
    ensures value { result ≡ spec.choice_in word.now (arguments_in arguments.now) }
    ensures settings { IfSome result (λ chosen. AreGivenBy (row_of chosen.mode).options chosen.settings) }
    ensures number { IfSome result (λ chosen. IsGivenBy (row_of chosen.mode).options chosen.number) }
{
    let mode = mode_called(word, places_in(arguments))?;
    choice_of(mode, arguments)
}

/// What a mode's options say, if it takes those of the line.
fn choice_of(mode: Mode, arguments: &Arguments<'_>) -> Option<Choice>
    ensures value { result ≡ spec.choice_of (arguments_in arguments.now) mode }
    ensures settings { IfSome result (λ chosen. AreGivenBy (row_of chosen.mode).options chosen.settings) }
    ensures number { IfSome result (λ chosen. IsGivenBy (row_of chosen.mode).options chosen.number) }
{
    let options = row_of(mode).options;
    Some(Choice {
        mode,
        settings: settings_by(options, arguments)?,
        number: number_by(options, arguments)?,
    })
}

/// How many words are behind the mode.
fn places_in(arguments: &Arguments<'_>) -> usize
    ensures { result ≡ spec.places_in (arguments_in arguments.now).first (arguments_in arguments.now).second
        (arguments_in arguments.now).third }
{
    match (arguments.first, arguments.second, arguments.third) {
        (Some(_), Some(_), Some(_)) => 3,
        (Some(_), Some(_), None) => 2,
        (Some(_), None, None) => 1,
        _ => 0,
    }
}

/// A word of the line; an empty text where it is not there.
fn text_of(alloc: Global, word: Option<&str>) -> Result<String, LineFault>
    ensures text { IfOk result (λ text.
        string_bytes text ≡ unwrap_or (option_map (λ s. s.now) word.entry) []) }
    ensures usage { result ≢ Err LineFault.Usage }
{
    String::from_str(alloc, word.unwrap_or("")).map_err(|_| LineFault::OutOfMemory)
}

/// The settings of a line by the options of its mode, if none is refused.
fn settings_by(options: Options, arguments: &Arguments<'_>) -> Option<Settings>
    ensures value { result ≡ spec.settings_by options (arguments_in arguments.now) }
    ensures given { IfSome result (AreGivenBy options) }
{
    match options {
        Options::Nothing | Options::Number => default_settings(arguments),
        Options::Run => run_settings_of(arguments),
        Options::Serve => serve_settings_of(arguments),
    }
}

/// The settings of a mode that takes no option, if the line has none.
fn default_settings(arguments: &Arguments<'_>) -> Option<Settings>
    ensures { result ≡ spec.unset spec.default_settings (arguments_in arguments.now) }
{
    if arguments.frames.is_some() || arguments.budget.is_some() || arguments.workers.is_some() {
        return None;
    }
    Some(Settings {
        frames: DEFAULT_FRAMES,
        budget: DEFAULT_BUDGET,
        job: Job::Run,
    })
}

/// The number of a line by the options of its mode, 0 if the mode takes none.
fn number_by(options: Options, arguments: &Arguments<'_>) -> Option<u32>
    ensures value { result ≡ spec.number_by options (arguments_in arguments.now) }
    ensures given { IfSome result (IsGivenBy options) }
{
    match options {
        Options::Number => number_within(1, 100, arguments.first?),
        Options::Nothing | Options::Run | Options::Serve => Some(0),
    }
}

/// The settings of a run, which takes no workers, if no number is refused.
fn run_settings_of(arguments: &Arguments<'_>) -> Option<Settings>
    ensures value { result ≡ spec.run_settings_of (arguments_in arguments.now) }
    ensures limits { IfSome result AreRunSettings }
{
    if arguments.workers.is_some() {
        return None;
    }
    settings_of(arguments, Job::Run)
}

/// The settings of a serve, if no number is refused.
fn serve_settings_of(arguments: &Arguments<'_>) -> Option<Settings>
    ensures value { result ≡ spec.serve_settings_of (arguments_in arguments.now) }
    ensures limits { IfSome result AreServeSettings }
{
    let workers = number_or(DEFAULT_WORKERS, MOST_THREADS, arguments.workers)?;
    settings_of(arguments, Job::Serve { workers })
}

/// The settings of a line for a job, if neither number is refused.
fn settings_of(arguments: &Arguments<'_>, job: Job) -> Option<Settings>
    requires { IsJob job }
    ensures value { result ≡ spec.settings_of job (arguments_in arguments.now) }
    ensures limits { IfSome result (λ settings. IsSettings settings × (settings.job ≡ job)) }
{
    Some(Settings {
        frames: number_or(DEFAULT_FRAMES, MOST_FRAMES, arguments.frames)?,
        budget: number_or(DEFAULT_BUDGET, MOST_BUDGET, arguments.budget)?,
        job,
    })
}

/// The number that an option has, if it is within its limits; the default if the option is not there.
fn number_or(default: u32, most: u32, word: Option<&str>) -> Option<u32>
    requires { (1 ≤ default) × (default ≤ most) }
    ensures value { result ≡ spec.number_or default most (option_map (λ s. s.now) word.entry) }
    ensures within { IfSome result (λ number. (1 ≤ number) × (number ≤ most)) }
{
    match word {
        Some(word) => number_within(1, most, word),
        None => Some(default),
    }
}
