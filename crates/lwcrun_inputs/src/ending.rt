ghost use Rattle.std.specs.Prelude.{◌≡◌};
ghost use Rattle.lwcrun_inputs.specs.Views.{end_of, error_end};
ghost use Rattle.lwcrun_inputs.specs.declared.ending.Rejection.TheVariants as rejections;

use guest_asm::{SourceError, SourceRule};
use guest_image::{ImageFault, ImageRule};
use lwc_text::{InputFault, InputRule};

/// Why an input was refused.
#[derive(Clone, Copy, PartialEq, Eq)]
pub enum Rejection {
    /// The image is not in its grammar or limits: the rule that it breaks first, and the offset where it
    /// does.
    Image { rule: ImageRule, at: u64 },
    /// The source is not in its grammar, or the image that it makes is not: the rule that it breaks first,
    /// and the offset in the source or, for a rule of images, in the image.
    Source { rule: SourceRule, at: u64 },
    /// The schedule, the requests, the vault or the script is not in its grammar or limits: the rule that it
    /// breaks first, and the offset where it does.
    Input { rule: InputRule, at: u64 },
    /// The image, with the vault if there is one, has more pages than there are frames.
    TooLarge { pages: u32, frames: u32 },
}

/// How a call ends.
#[derive(Clone, Copy)]
pub enum Ending<'a> {
    /// All was read, run and written.
    Done,
    NoMemory,
    /// The line is not accepted.
    Usage,
    /// A fetch of the file of this name failed.
    Unread(&'a str),
    /// A write failed.
    Unwritten,
    Refused(Rejection),
}

impl<'a> From<ImageFault> for Ending<'a> {
    ghost from_gives = { λ fault ending. end_of ending ≡ error_end rejections.Image fault };

    /// The end of a call whose image was not read.
    fn from(fault: ImageFault) -> Ending<'a> {
        match fault {
            ImageFault::OutOfMemory => Ending::NoMemory,
            ImageFault::Refused { rule, at } => Ending::Refused(Rejection::Image { rule, at }),
        }
    }
}

impl<'a> From<SourceError> for Ending<'a> {
    ghost from_gives = { λ error ending. end_of ending ≡ error_end rejections.Source error };

    /// The end of a call whose source was not read.
    fn from(error: SourceError) -> Ending<'a> {
        match error {
            SourceError::OutOfMemory => Ending::NoMemory,
            SourceError::Refused { rule, at } => Ending::Refused(Rejection::Source { rule, at }),
        }
    }
}

impl<'a> From<InputFault> for Ending<'a> {
    ghost from_gives = { λ fault ending. end_of ending ≡ error_end rejections.Input fault };

    /// The end of a call whose schedule, requests, vault or script were not read.
    fn from(fault: InputFault) -> Ending<'a> {
        match fault {
            InputFault::OutOfMemory => Ending::NoMemory,
            InputFault::Refused { rule, at } => Ending::Refused(Rejection::Input { rule, at }),
        }
    }
}
