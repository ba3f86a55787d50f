//! Why an image is refused.

ghost use Rattle.std.specs.Prelude.{◌≡◌};
ghost use Rattle.guest_image.specs.Rules.{rule_name};

use lwc_types::ReadError;

/// The rules of an image.
#[derive(Clone, Copy, Debug, PartialEq, Eq)]
pub enum ImageRule {
    /// The file is longer than an image may be.
    TooLong,
    /// A byte of the magic differs.
    BadMagic,
    /// The file ends inside a field, or before one that is due.
    Truncated,
    /// A count is out of its range.
    BadCount,
    /// The eight bytes of an instruction spell none.
    BadInstruction,
    /// An instruction's target is not below the number of instructions.
    BadTarget,
    /// A page's number is above the last one, is not above the one before it, or begins a range too many.
    BadPage,
    /// A file is neither public nor not, or the files have too many bytes.
    BadFile,
    /// A slot cannot be filled, is not above the one before it, or has a file that is not there.
    BadSlot,
    /// A thread's entry is not below the number of instructions.
    BadEntry,
    /// A byte follows the last entry.
    Trailing,
}

impl ImageRule {
    /// The rule's name.
    pub fn name(self) -> &'static str
        ensures { result.now ≡ rule_name self }
    {
        match self {
            ImageRule::TooLong => "TooLong",
            ImageRule::BadMagic => "BadMagic",
            ImageRule::Truncated => "Truncated",
            ImageRule::BadCount => "BadCount",
            ImageRule::BadInstruction => "BadInstruction",
            ImageRule::BadTarget => "BadTarget",
            ImageRule::BadPage => "BadPage",
            ImageRule::BadFile => "BadFile",
            ImageRule::BadSlot => "BadSlot",
            ImageRule::BadEntry => "BadEntry",
            ImageRule::Trailing => "Trailing",
        }
    }
}

/// Why no image was read: memory ran out, or the file is refused.
pub type ImageFault = ReadError<ImageRule>;
