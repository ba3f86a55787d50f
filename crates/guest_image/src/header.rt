//! The head of an image.

ghost use Rattle.std.specs.Prelude.{◌≡◌, ◌≤◌, IfOk};
ghost use Rattle.lwc_types.specs.Outcomes.{Answers};
ghost use Rattle.lwc_types.specs.declared.limits.TheConstants.{MOST_FILES, MOST_INSTRUCTIONS};
ghost use Rattle.guest_image.specs.Reading.{byte_at, magic_at, count_at, header_at};
ghost use Rattle.guest_image.specs.Spelling.{digit};

use crate::fault::{ImageFault, ImageRule};
use crate::image::Form;
use crate::reader::Reader;
use lwc_types::{MOST_FILES, MOST_IMAGE_SLOTS, MOST_INSTRUCTIONS, MOST_THREADS, ReadError};

/// The number of values of each list, and the uid.
#[derive(Clone, Copy)]
pub(crate) struct Header {
    pub(crate) instructions: u32,
    pub(crate) pages: u32,
    pub(crate) files: u32,
    pub(crate) slots: u32,
    pub(crate) threads: u32,
    pub(crate) uid: u32,
}

impl Header {
    /// Reads the head of an image of a form.
    #[tactic(auto, unfolding(crate::specs::Reading::header_at))]
    pub(crate) fn read(reader: &mut Reader, form: Form) -> Result<Header, ImageFault>
        ensures read { Answers (λ h. (h, reader.new)) result (header_at form reader.old) }
        ensures some { IfOk result (λ h. 1 ≤ h.instructions) }
        ensures bounded { IfOk result (λ h. h.instructions ≤ MOST_INSTRUCTIONS) }
        ensures files { IfOk result (λ h. h.files ≤ MOST_FILES) }
    {
        read_magic(reader, form)?;
        let instructions = read_count(reader, 1, MOST_INSTRUCTIONS)?;
        let pages = read_count(reader, 0, u32::from(form.pages()))?;
        let files = read_count(reader, 0, MOST_FILES)?;
        let slots = read_count(reader, 0, MOST_IMAGE_SLOTS)?;
        let threads = read_count(reader, 1, MOST_THREADS)?;
        let uid = reader.number()?;
        Ok(Header {
            instructions,
            pages,
            files,
            slots,
            threads,
            uid,
        })
    }
}

/// The digit of a form.
fn digit(form: Form) -> u8
    ensures { result ≡ digit form }
{
    match form {
        Form::One => b'1',
        Form::Two => b'2',
    }
}

/// Reads the magic of a form.
#[tactic(auto, unfolding(crate::specs::Reading::magic_at))]
fn read_magic(reader: &mut Reader, form: Form) -> Result<(), ImageFault>
    ensures { Answers (λ _. reader.new) result (magic_at form reader.old) }
{
    read_byte(reader, b'L')?;
    read_byte(reader, b'W')?;
    read_byte(reader, b'C')?;
    read_byte(reader, digit(form))
}

/// Reads this byte of the magic.
#[tactic(auto, unfolding(crate::specs::Reading::byte_at))]
fn read_byte(reader: &mut Reader, expected: u8) -> Result<(), ImageFault>
    ensures { Answers (λ _. reader.new) result (byte_at expected reader.old) }
{
    let at = reader.offset();
    let field = reader.bytes(1)?;
    if field[0] == expected {
        Ok(())
    } else {
        Err(ReadError::Refused {
            rule: ImageRule::BadMagic,
            at,
        })
    }
}

/// Reads a count that has to be within a range.
#[tactic(auto, unfolding(crate::specs::Reading::number_where))]
fn read_count(reader: &mut Reader, least: u32, most: u32) -> Result<u32, ImageFault>
    ensures read { Answers (λ n. (n, reader.new)) result (count_at least most reader.old) }
    ensures least { IfOk result (λ n. least ≤ n) }
    ensures most { IfOk result (λ n. n ≤ most) }
{
    let at = reader.offset();
    let count = reader.number()?;
    if least <= count && count <= most {
        Ok(count)
    } else {
        Err(ReadError::Refused {
            rule: ImageRule::BadCount,
            at,
        })
    }
}
