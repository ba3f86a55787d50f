//! The lists of an image, each as long as its header says.

ghost use Rattle.std.specs.Prelude.{◌≡◌, ◌≤◌};
ghost use Rattle.lwc_types.specs.Outcomes.{Answers};
ghost use Rattle.lwc_types.specs.declared.limits.TheConstants.{MOST_FILES, MOST_INSTRUCTIONS};
ghost use Rattle.guest_image.specs.Reading.{instructions_at, pages_at, files_at, slots_at, entries_at};

use crate::fault::{ImageFault, ImageRule};
use crate::image::{Form, PageImage, SlotImage};
use crate::parts::{
    ranges_with, read_file, read_instruction, read_number_below, read_page, read_slot,
};
use crate::reader::Reader;
use guest_isa::Text;
use lwc_types::{FileImage, Sequence};
use std::alloc::Global;

/// Reads a text of this length.
pub(crate) fn read_text(alloc: Global, reader: &mut Reader, count: u32) -> Result<Text, ImageFault>
    requires some { 1 ≤ count }
    requires bounded { count ≤ MOST_INSTRUCTIONS }
    ensures { Answers (λ text. (text, reader.new)) result (instructions_at count reader.old) }
{
    let mut instructions = Vec::new(alloc);
    for _ in 0..count {
        instructions.push(read_instruction(reader, count)?)?;
    }
    Ok(Text::of(instructions))
}

/// Reads a number of pages.
#[tactic(auto, unfolding(crate::specs::Numbers::last_after, crate::specs::Numbers::ranges_after))]
pub(crate) fn read_pages(
    alloc: Global,
    reader: &mut Reader,
    form: Form,
    count: u32,
) -> Result<Sequence<PageImage>, ImageFault>
    ensures { Answers (λ pages. (pages, reader.new)) result (pages_at form count reader.old) }
{
    let mut pages = Vec::new(alloc);
    let mut last = None;
    let mut ranges = 0;
    for _ in 0..count {
        let page = read_page(alloc, reader, form, last, ranges)?;
        ranges = ranges_with(ranges, last, u32::from(page.number));
        last = Some(page.number);
        pages.push(page)?;
    }
    Ok(Sequence::of(pages))
}

/// Reads a number of files.
pub(crate) fn read_files(
    alloc: Global,
    reader: &mut Reader,
    count: u32,
) -> Result<Sequence<FileImage>, ImageFault>
    ensures { Answers (λ files. (files, reader.new)) result (files_at count reader.old) }
{
    let mut files = Vec::new(alloc);
    let mut content = 0;
    for _ in 0..count {
        let file = read_file(alloc, reader, content)?;
        content += file.bytes.len() as u32;
        files.push(file)?;
    }
    Ok(Sequence::of(files))
}

/// Reads a number of slots, each with one of the files.
#[tactic(auto, unfolding(crate::specs::Numbers::last_after))]
pub(crate) fn read_slots(
    alloc: Global,
    reader: &mut Reader,
    files: u32,
    count: u32,
) -> Result<Sequence<SlotImage>, ImageFault>
    requires { files ≤ MOST_FILES }
    ensures { Answers (λ slots. (slots, reader.new)) result (slots_at files count reader.old) }
{
    let mut slots = Vec::new(alloc);
    let mut last = None;
    for _ in 0..count {
        let slot = read_slot(reader, files, last)?;
        last = Some(u16::from(slot.slot));
        slots.push(slot)?;
    }
    Ok(Sequence::of(slots))
}

/// Reads a number of entries into a text.
pub(crate) fn read_entries(
    alloc: Global,
    reader: &mut Reader,
    instructions: u32,
    count: u32,
) -> Result<Sequence<u32>, ImageFault>
    ensures { Answers (λ entries. (entries, reader.new)) result (entries_at instructions count reader.old) }
{
    let mut entries = Vec::new(alloc);
    for _ in 0..count {
        entries.push(read_number_below(reader, instructions, ImageRule::BadEntry)?)?;
    }
    Ok(Sequence::of(entries))
}
