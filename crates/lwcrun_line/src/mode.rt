//! The modes, each a row of a table.

ghost use Rattle.std.specs.Prelude.{◌≡◌};
ghost use Rattle.lwcrun_line.specs.Modes as spec;

/// A mode. A replay has one for a run and one for a serve.
#[derive(Clone, Copy, PartialEq, Eq)]
pub enum Mode {
    Replay,
    ReplayServe,
    Run,
    Serve,
    Asm,
    Dis,
    Gen,
    Lift,
    Monitor,
    Guard,
    Vault,
    Debug,
    Stream,
}

/// The options that a mode takes.
#[derive(Clone, Copy, PartialEq, Eq)]
pub enum Options {
    /// None.
    Nothing,
    /// None, and the word behind the mode is a number.
    Number,
    /// Frames and a budget.
    Run,
    /// Frames, a budget and workers.
    Serve,
}

/// A mode's row: its word, how many words are behind that, and its options.
#[derive(Clone, Copy)]
pub(crate) struct Row<'a> {
    pub word: &'a str,
    pub places: usize,
    pub options: Options,
}

/// All modes.
const MODES: [Mode; 13] = [
    Mode::Replay,
    Mode::ReplayServe,
    Mode::Run,
    Mode::Serve,
    Mode::Asm,
    Mode::Dis,
    Mode::Gen,
    Mode::Lift,
    Mode::Monitor,
    Mode::Guard,
    Mode::Vault,
    Mode::Debug,
    Mode::Stream,
];

/// The table of modes.
pub(crate) fn row_of<'a>(mode: Mode) -> Row<'a>
    ensures word { result.word.now ≡ (spec.row_of mode).word }
    ensures places { result.places ≡ (spec.row_of mode).places }
    ensures options { result.options ≡ (spec.row_of mode).options }
{
    match mode {
        Mode::Replay => new_row("replay", 2, Options::Run),
        Mode::ReplayServe => new_row("replay", 3, Options::Serve),
        Mode::Run => new_row("run", 1, Options::Run),
        Mode::Serve => new_row("serve", 2, Options::Serve),
        Mode::Asm => new_row("asm", 1, Options::Nothing),
        Mode::Dis => new_row("dis", 1, Options::Nothing),
        Mode::Gen => new_row("gen", 1, Options::Number),
        Mode::Lift => new_row("lift", 1, Options::Nothing),
        Mode::Monitor => new_row("monitor", 2, Options::Run),
        Mode::Guard => new_row("guard", 2, Options::Run),
        Mode::Vault => new_row("vault", 3, Options::Run),
        Mode::Debug => new_row("debug", 3, Options::Run),
        Mode::Stream => new_row("stream", 2, Options::Serve),
    }
}

/// A row of the table.
fn new_row<'a>(word: &'a str, places: usize, options: Options) -> Row<'a>
    ensures word { result.word.now ≡ word.entry.now }
    ensures places { result.places ≡ places }
    ensures options { result.options ≡ options }
{
    Row {
        word,
        places,
        options,
    }
}

/// The mode of a word with this number of words behind it.
#[tactic(auto, unfolding(crate::specs::Modes::mode_called))]
pub(crate) fn mode_called(word: &str, places: usize) -> Option<Mode>
    ensures { result ≡ spec.mode_called word.now places }
{
    MODES
        .iter()
        .copied()
        .find(|mode| is_called(*mode, word, places))
}

/// Whether a mode has this word and this number of words behind it.
fn is_called(mode: Mode, word: &str, places: usize) -> bool
    ensures { result ≡ spec.is_called word.now places mode }
{
    let row = row_of(mode);
    row.word == word && row.places == places
}
