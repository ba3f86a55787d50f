//! Reading an image.

ghost use Rattle.std.specs.Prelude.{◌≡◌, ◌≤◌, ℕ, IfOk, Ok, Err};
ghost use Rattle.lwc_types.specs.declared.limits.TheConstants.{MOST_IMAGE_BYTES};
ghost use Rattle.lwc_types.specs.Outcomes.{Answers};
ghost use Rattle.lwc_types.specs.declared.reading.ReadError.TheVariants.{Refused};
ghost use Rattle.guest_image.specs.declared.fault.ImageRule.{ImageRule};
ghost use Rattle.guest_image.specs.declared.image.Image.{Image};
ghost use Rattle.guest_image.specs.Limits.{IsImage};
ghost use Rattle.guest_image.specs.Refusals.{IsRefused};
ghost use Rattle.guest_image.specs.Spelling.{spelling};
ghost use Rattle.guest_image.specs.Reading.{begins_as_one, form_of, limit_of, parts_at, image_at};

use crate::fault::{ImageFault, ImageRule};
use crate::header::Header;
use crate::image::{Form, Image};
use crate::lists::{read_entries, read_files, read_pages, read_slots, read_text};
use crate::reader::Reader;
use lwc_types::{MOST_BYTES_OF_FORM_ONE, MOST_IMAGE_BYTES, ReadError};
use std::alloc::Global;

/// The image that these bytes spell, all of them.
///
/// # Errors
///
/// Out of memory, or the first refusal: the rule that the file breaks first from its first byte to its
/// last, and the offset in bytes where it does (`IsRefused`).
pub fn read_image(alloc: Global, bytes: &[u8]) -> Result<Image, ImageFault>
    // What is read is within the limits, and these are its bytes.
    ensures found { IfOk result (λ image. IsImage image × (bytes.now ≡ spelling image)) }
    // The bytes of an image within the limits are read as that image, unless memory runs out.
    ensures only { (image : Image) → IsImage image → bytes.now ≡ spelling image
        → Answers (λ read. read) result (Ok image) }
    // A refusal is so: the file breaks this rule at this offset.
    ensures refused { (rule : ImageRule) (at : ℕ) → result ≡ Err (Refused rule at)
        → IsRefused bytes.now rule at }
    // A file that breaks a rule at an offset is refused so, unless memory runs out.
    ensures only_refused { (rule : ImageRule) (at : ℕ) → IsRefused bytes.now rule at
        → Answers (λ read. read) result (Err (record { rule = rule; at = at })) }
    // What is answered is what the reading gives, unless memory runs out.
    ensures exact { Answers (λ image. image) result (image_at bytes.now) }
{
    read_file(alloc, bytes)
}

/// The image of a file that may be too long, or its first refusal.
#[tactic(auto, unfolding(crate::specs::Reading::image_at))]
fn read_file(alloc: Global, bytes: &[u8]) -> Result<Image, ImageFault>
    ensures { Answers (λ image. image) result (image_at bytes.now) }
{
    let limit = limit_of(bytes);
    if bytes.len() > limit {
        return Err(ReadError::Refused {
            rule: ImageRule::TooLong,
            at: limit as u64,
        });
    }
    read_parts(alloc, &mut Reader::new(bytes), form_of(bytes))
}

/// The form that the fourth byte of a file tells.
fn form_of(bytes: &[u8]) -> Form
    ensures { result ≡ form_of bytes.now }
{
    match bytes {
        [_, _, _, d, ..] if *d == b'2' => Form::Two,
        _ => Form::One,
    }
}

/// Whether a file begins with the magic of form 1.
fn begins_as_one(bytes: &[u8]) -> bool
    ensures { result ≡ begins_as_one bytes.now }
{
    match bytes {
        [a, b, c, d, ..] => *a == b'L' && *b == b'W' && *c == b'C' && *d == b'1',
        _ => false,
    }
}

/// The most bytes that a file may have.
#[tactic(auto, unfolding(crate::specs::Reading::limit_of))]
fn limit_of(bytes: &[u8]) -> usize
    ensures limit { result ≡ limit_of bytes.now }
    ensures most { result ≤ MOST_IMAGE_BYTES }
{
    if bytes.len() <= MOST_IMAGE_BYTES && begins_as_one(bytes) {
        MOST_BYTES_OF_FORM_ONE
    } else {
        MOST_IMAGE_BYTES
    }
}

/// Reads every part of a file of a form, and nothing after the last.
#[tactic(auto, unfolding(crate::specs::Reading::parts_at))]
fn read_parts(alloc: Global, reader: &mut Reader, form: Form) -> Result<Image, ImageFault>
    ensures { Answers (λ image. image) result (parts_at form reader.old) }
{
    let header = Header::read(reader, form)?;
    let text = read_text(alloc, reader, header.instructions)?;
    let pages = read_pages(alloc, reader, form, header.pages)?;
    let files = read_files(alloc, reader, header.files)?;
    let slots = read_slots(alloc, reader, header.files, header.slots)?;
    let entries = read_entries(alloc, reader, header.instructions, header.threads)?;
    if !reader.is_empty() {
        return Err(ReadError::Refused {
            rule: ImageRule::Trailing,
            at: reader.offset(),
        });
    }
    Ok(Image {
        form,
        text,
        uid: header.uid,
        pages,
        files,
        slots,
        entries,
    })
}
