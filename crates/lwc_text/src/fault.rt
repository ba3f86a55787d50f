//! Why an input is refused.

ghost use Rattle.std.specs.Prelude.{◌≡◌};
ghost use Rattle.lwc_text.specs.Rules.{rule_name};

use lwc_base::ReadError;

/// The rules of inputs.
#[derive(Clone, Copy, Debug, PartialEq, Eq)]
pub enum InputRule {
    /// The input is longer than it may be.
    TooLong,
    /// A byte is neither blank nor the digit of a thread that is there.
    BadThread,
    /// There are more steps than there may be: `MOST_STEPS`, or fewer where the reader says so.
    TooManySteps,
    /// There are more than `MOST_REQUESTS` requests.
    TooManyRequests,
    /// A byte of a request is no hexadecimal digit.
    BadHex,
    /// A request has more than `MOST_REQUEST_BYTES` bytes.
    RequestTooLong,
    /// A request has an odd number of digits.
    OddLength,
    /// The requests of a serve may take more than `MOST_STEPS` steps.
    TooMuchWork,
    /// A vault file ends inside a field, or before its first page.
    Truncated,
    /// A vault's entry is not below the number of instructions.
    BadEntry,
    /// A vault's page has a number above the last one, or not above the one before it.
    BadPage,
    /// The image has a file in the vault's slot.
    SlotTaken,
    /// A line of a script is not a command.
    BadCommand,
    /// A script has more commands than it may have.
    TooManyCommands,
}

impl InputRule {
    /// The rule's name.
    pub fn name(self) -> &'static str
        ensures { result.now ≡ rule_name self }
    {
        match self {
            InputRule::TooLong => "TooLong",
            InputRule::BadThread => "BadThread",
            InputRule::TooManySteps => "TooManySteps",
            InputRule::TooManyRequests => "TooManyRequests",
            InputRule::BadHex => "BadHex",
            InputRule::RequestTooLong => "RequestTooLong",
            InputRule::OddLength => "OddLength",
            InputRule::TooMuchWork => "TooMuchWork",
            InputRule::Truncated => "Truncated",
            InputRule::BadEntry => "BadEntry",
            InputRule::BadPage => "BadPage",
            InputRule::SlotTaken => "SlotTaken",
            InputRule::BadCommand => "BadCommand",
            InputRule::TooManyCommands => "TooManyCommands",
        }
    }
}

/// Why no input was read: memory ran out, or the input is refused.
pub type InputFault = ReadError<InputRule>;
