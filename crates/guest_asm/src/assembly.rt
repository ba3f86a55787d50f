//! From a source to an image.

ghost use Rattle.std.specs.Prelude.{IfOk};
ghost use Rattle.lwc_types.specs.Outcomes.{Answers};
ghost use Rattle.guest_image.specs.Limits.{IsImage};
ghost use Rattle.guest_image.specs.Reading.{image_at};
ghost use Rattle.guest_asm.specs.Drafts as spec;
ghost use Rattle.guest_asm.specs.Views.{draft_in};

use crate::draft::{check_labels, draft_bytes, draft_length};
use crate::error::{SourceError, SourceRule};
use crate::source::Source;
use guest_image::{Image, ImageRule, read_image};
use lwc_types::{MOST_IMAGE_BYTES, MOST_SOURCE_BYTES, ReadError};
use std::alloc::Global;

/// The image that a source makes (`assembled`), which is within the limits of images.
///
/// # Errors
///
/// Out of memory, or the first refusal. These are looked for in this order: `TooLong`, at
/// `MOST_SOURCE_BYTES`; then over the lines, at the offset in bytes of the line, `BadLine`, `BadOperand`, and
/// `BadLabel` for a label that an earlier line defines; then `BadLabel` at the first line that uses a label
/// that no line defines; then the rules of images, at the offset in the image that was made.
#[tactic(auto, unfolding(crate::specs::Drafts::assembled, crate::specs::Drafts::draft_at))]
pub fn assemble(alloc: Global, source: &[u8]) -> Result<Image, SourceError>
    ensures exact { Answers (λ image. image) result (spec.assembled source.now) }
    ensures within { IfOk result (λ image. IsImage image) }
{
    if source.len() > MOST_SOURCE_BYTES {
        return Err(ReadError::Refused {
            rule: SourceRule::TooLong,
            at: MOST_SOURCE_BYTES as u64,
        });
    }
    let source = Source::read(alloc, source)?;
    check_labels(&source)?;
    read_draft(alloc, source)
}

/// Reads the draft of what all lines say as an image.
fn read_draft(alloc: Global, source: Source<'_>) -> Result<Image, SourceError>
    ensures exact { Answers (λ image. image) result
        (spec.of_image (image_at (spec.draft_bytes (draft_in source.entry)))) }
    ensures within { IfOk result (λ image. IsImage image) }
{
    if draft_length(&source) > MOST_IMAGE_BYTES as u128 {
        return Err(ReadError::Refused {
            rule: SourceRule::Image(ImageRule::TooLong),
            at: MOST_IMAGE_BYTES as u64,
        });
    }
    let bytes = draft_bytes(alloc, &source)?;
    drop(source);
    match read_image(alloc, bytes.as_slice()) {
        Ok(image) => Ok(image),
        Err(ReadError::OutOfMemory) => Err(ReadError::OutOfMemory),
        Err(ReadError::Refused { rule, at }) => Err(ReadError::Refused {
            rule: SourceRule::Image(rule),
            at,
        }),
    }
}
