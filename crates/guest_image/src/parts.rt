//! One instruction, page, file, slot or entry of an image.

ghost use Rattle.std.specs.Prelude.{◌≡◌, ◌+◌, ◌<◌, ◌≤◌, length, IfOk};
ghost use Rattle.lwc_types.specs.Outcomes.{Answers};
ghost use Rattle.guest_isa.specs.Instructions.{IsInstruction};
ghost use Rattle.lwc_types.specs.declared.limits.TheConstants.{MOST_FILE_BYTES, MOST_FILES, MOST_RANGES};
ghost use Rattle.guest_image.specs.Numbers.{is_above, begins, ranges_with};
ghost use Rattle.guest_image.specs.Limits.{stays_inside};
ghost use Rattle.guest_image.specs.Reading.{number_below, instruction_at, page_number_at, page_at, public_at};
ghost use Rattle.guest_image.specs.Reading.{length_at, file_at, slot_number_at, slot_at};

use crate::fault::{ImageFault, ImageRule};
use crate::image::{FIRST_SLOT, Form, PageImage, SlotImage};
use crate::reader::Reader;
use guest_isa::{Instr, decode};
use lwc_types::{
    FileImage, MOST_FILE_BYTES, MOST_RANGES, PAGE_BYTES, PageBytes, PageNumber, ReadError, SLOTS,
    Sequence, SlotNumber,
};
use std::alloc::Global;

/// Reads an instruction of a text of this length.
#[tactic(auto, unfolding(crate::specs::Reading::instruction_at))]
pub(crate) fn read_instruction(reader: &mut Reader, count: u32) -> Result<Instr, ImageFault>
    ensures read { Answers (λ i. (i, reader.new)) result (instruction_at count reader.old) }
    ensures instruction { IfOk result (λ i. IsInstruction i) }
{
    let at = reader.offset();
    let field = reader.bytes(8)?;
    let Some(instr) = decode(field) else {
        return Err(ReadError::Refused {
            rule: ImageRule::BadInstruction,
            at,
        });
    };
    if stays_inside(count, &instr) {
        Ok(instr)
    } else {
        Err(ReadError::Refused {
            rule: ImageRule::BadTarget,
            at,
        })
    }
}

/// Whether the target of an instruction, if it has one, is in a text of this length.
fn stays_inside(count: u32, instr: &Instr) -> bool
    ensures { result ≡ stays_inside count instr.now }
{
    !instr.op.has_target() || instr.imm < count
}

/// Reads a page, after pages with this last number and number of ranges.
#[tactic(auto, unfolding(crate::specs::Reading::page_at))]
pub(crate) fn read_page(
    alloc: Global,
    reader: &mut Reader,
    form: Form,
    last: Option<PageNumber>,
    ranges: u32,
) -> Result<PageImage, ImageFault>
    requires { ranges ≤ MOST_RANGES }
    ensures read { Answers (λ p. (p, reader.new)) result (page_at form last ranges reader.old) }
    ensures room { IfOk result (λ p. ranges_with ranges last p.number ≤ MOST_RANGES) }
{
    let number = read_page_number(reader, form, last, ranges)?;
    let field = reader.bytes(PAGE_BYTES)?;
    let bytes = PageBytes::from_slice(alloc, field)?;
    Ok(PageImage { number, bytes })
}

/// Reads the number of a page.
#[tactic(auto, unfolding(crate::specs::Reading::number_where))]
fn read_page_number(
    reader: &mut Reader,
    form: Form,
    last: Option<PageNumber>,
    ranges: u32,
) -> Result<PageNumber, ImageFault>
    requires { ranges ≤ MOST_RANGES }
    ensures read { Answers (λ n. (n, reader.new)) result (page_number_at form last ranges reader.old) }
    ensures room { IfOk result (λ n. ranges_with ranges last n ≤ MOST_RANGES) }
{
    let at = reader.offset();
    let number = reader.number()?;
    let ranges = ranges_with(ranges, last, number);
    if number < u32::from(form.pages()) && is_above(last, number) && ranges <= MOST_RANGES {
        Ok(number as PageNumber)
    } else {
        Err(ReadError::Refused {
            rule: ImageRule::BadPage,
            at,
        })
    }
}

/// Whether a number is above the one before it.
fn is_above(last: Option<u16>, number: u32) -> bool
    ensures { result ≡ is_above last number }
{
    match last {
        None => true,
        Some(last) => u32::from(last) < number,
    }
}

/// The number of ranges, with one more where a number begins one.
pub(crate) fn ranges_with(ranges: u32, last: Option<PageNumber>, number: u32) -> u32
    requires { ranges ≤ MOST_RANGES }
    ensures { result ≡ ranges_with ranges last number }
{
    if begins(last, number) {
        ranges + 1
    } else {
        ranges
    }
}

/// Whether a number begins a range: it does not come directly after the number before it.
fn begins(last: Option<PageNumber>, number: u32) -> bool
    ensures { result ≡ begins last number }
{
    match last {
        None => true,
        Some(last) => number != u32::from(last) + 1,
    }
}

/// Reads a file, after files with this number of bytes.
#[tactic(auto, unfolding(crate::specs::Reading::file_at))]
pub(crate) fn read_file(
    alloc: Global,
    reader: &mut Reader,
    content: u32,
) -> Result<FileImage, ImageFault>
    requires { content ≤ MOST_FILE_BYTES }
    ensures read { Answers (λ f. (f, reader.new)) result (file_at content reader.old) }
    ensures room { IfOk result (λ f. content + length f.bytes ≤ MOST_FILE_BYTES) }
{
    let owner = reader.number()?;
    let public = read_public(reader)?;
    let length = read_length(reader, content)?;
    let field = reader.bytes(length as usize)?;
    let bytes = Sequence::of(Vec::from_slice(alloc, field)?);
    Ok(FileImage {
        owner,
        public,
        bytes,
    })
}

/// Reads whether a file is public.
#[tactic(auto, unfolding(crate::specs::Reading::number_where))]
fn read_public(reader: &mut Reader) -> Result<bool, ImageFault>
    ensures { Answers (λ b. (b, reader.new)) result (public_at reader.old) }
{
    let at = reader.offset();
    let flag = reader.number()?;
    if flag < 2 {
        Ok(flag == 1)
    } else {
        Err(ReadError::Refused {
            rule: ImageRule::BadFile,
            at,
        })
    }
}

/// Reads a file's length, after files with this number of bytes.
#[tactic(auto, unfolding(crate::specs::Reading::number_where))]
fn read_length(reader: &mut Reader, content: u32) -> Result<u32, ImageFault>
    requires { content ≤ MOST_FILE_BYTES }
    ensures read { Answers (λ n. (n, reader.new)) result (length_at content reader.old) }
    ensures room { IfOk result (λ n. content + n ≤ MOST_FILE_BYTES) }
{
    let at = reader.offset();
    let length = reader.number()?;
    if u64::from(content) + u64::from(length) <= u64::from(MOST_FILE_BYTES) {
        Ok(length)
    } else {
        Err(ReadError::Refused {
            rule: ImageRule::BadFile,
            at,
        })
    }
}

/// Reads a slot with one of the files, after a slot with this number.
#[tactic(auto, unfolding(crate::specs::Reading::slot_at))]
pub(crate) fn read_slot(
    reader: &mut Reader,
    files: u32,
    last: Option<u16>,
) -> Result<SlotImage, ImageFault>
    requires { files ≤ MOST_FILES }
    ensures { Answers (λ s. (s, reader.new)) result (slot_at files last reader.old) }
{
    let slot = read_slot_number(reader, last)?;
    let file = read_number_below(reader, files, ImageRule::BadSlot)? as u8;
    Ok(SlotImage { slot, file })
}

/// Reads the number of a slot.
#[tactic(auto, unfolding(crate::specs::Reading::number_where))]
fn read_slot_number(reader: &mut Reader, last: Option<u16>) -> Result<SlotNumber, ImageFault>
    ensures { Answers (λ n. (n, reader.new)) result (slot_number_at last reader.old) }
{
    let at = reader.offset();
    let slot = reader.number()?;
    if u32::from(FIRST_SLOT) <= slot && slot < u32::from(SLOTS) && is_above(last, slot) {
        Ok(slot as SlotNumber)
    } else {
        Err(ReadError::Refused {
            rule: ImageRule::BadSlot,
            at,
        })
    }
}

/// Reads a number that has to be below a limit.
#[tactic(auto, unfolding(crate::specs::Reading::number_where))]
pub(crate) fn read_number_below(
    reader: &mut Reader,
    limit: u32,
    rule: ImageRule,
) -> Result<u32, ImageFault>
    ensures read { Answers (λ n. (n, reader.new)) result (number_below limit rule reader.old) }
    ensures below { IfOk result (λ n. n < limit) }
{
    let at = reader.offset();
    let number = reader.number()?;
    if number < limit {
        Ok(number)
    } else {
        Err(ReadError::Refused { rule, at })
    }
}
