//! Laws of the definitions.

ghost use Rattle.guest_image.specs.Facts.{ReadingFacts};

/// A law: an image is read from its bytes, no other bytes give one, and a file is refused by a rule at an
/// offset exactly where it breaks that rule there.
#[tactic(auto, using(crate::proofs::Answered::reading_facts))]
pub fn images_are_read_as_spelled()
    ensures { ReadingFacts }
{}
