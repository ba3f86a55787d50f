//! Why a source is refused.

ghost use Rattle.std.specs.Prelude.{◌≡◌};
ghost use Rattle.guest_asm.specs.Rules.{rule_name};

use guest_image::ImageRule;
use lwc_types::ReadError;

/// The rules of a source.
#[derive(Clone, Copy, Debug, PartialEq, Eq)]
pub enum SourceRule {
    /// The source has more than `MOST_SOURCE_BYTES` bytes.
    TooLong,
    /// A line names no instruction or directive, has a wrong number of operands, has a second `.uid`, or has
    /// a byte outside its comment that is neither printable ASCII nor a tab.
    BadLine,
    /// An operand has a wrong form.
    BadOperand,
    /// A label is defined twice, or used and not defined.
    BadLabel,
    /// The image that the source makes breaks this rule of images; the offset is the image's.
    Image(ImageRule),
}

impl SourceRule {
    /// The rule's name; for a rule of images it is the name there.
    pub fn name(self) -> &'static str
        ensures { result.now ≡ rule_name self }
    {
        match self {
            SourceRule::TooLong => "TooLong",
            SourceRule::BadLine => "BadLine",
            SourceRule::BadOperand => "BadOperand",
            SourceRule::BadLabel => "BadLabel",
            SourceRule::Image(rule) => rule.name(),
        }
    }
}

/// Why no image was made: memory ran out, or the source is refused.
pub type SourceError = ReadError<SourceRule>;
