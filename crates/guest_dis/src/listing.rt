//! From an image to a source.

ghost use Rattle.std.specs.Prelude.{◌≡◌, ◌<◌, ◌++◌, All, IfOk, Ok, OnOk};
ghost use Rattle.std.specs.List.{flat_map};
ghost use Rattle.guest_image.specs.Limits.{IsImage};
ghost use Rattle.guest_asm.specs.Drafts.{assembled};
ghost use Rattle.guest_dis.specs.Listing as spec;

use crate::lines::{put_entry, put_file, put_form, put_instruction, put_page, put_slot, put_uid};
use guest_image::{Image, PageImage, SlotImage};
use guest_isa::Text;
use lwc_types::{FileImage, OutOfMemory};
use std::alloc::Global;

/// The source of an image (`listing`): the form if it is 2, the uid, the entries, the instructions, the pages, the
/// files and the slots, one a line, without labels. It is assembled to the same image. The only error is out of memory.
pub fn disassemble(alloc: Global, image: &Image) -> Result<Vec<u8>, OutOfMemory>
    requires { IsImage image.now }
    ensures source { IfOk result (λ source. source.items ≡ spec.listing image.now) }
    ensures read_back { IfOk result (λ source. assembled source.items ≡ Ok image.now) }
{
    list(alloc, image)
}

/// The source of an image.
#[tactic(auto, unfolding(crate::specs::Listing::listing))]
fn list(alloc: Global, image: &Image) -> Result<Vec<u8>, OutOfMemory>
    ensures source { IfOk result (λ source. source.items ≡ spec.listing image.now) }
    ensures bytes { OnOk result (spec.HasBytes image.now) }
{
    let mut out = Vec::new(alloc);
    put_form(&mut out, image.form)?;
    put_uid(&mut out, image.uid)?;
    put_entries(&mut out, image.entries.as_slice())?;
    put_text(&mut out, &image.text)?;
    put_pages(&mut out, image.pages.as_slice())?;
    put_files(&mut out, image.files.as_slice())?;
    put_slots(&mut out, image.slots.as_slice())?;
    Ok(out)
}

/// Appends the lines of the entries.
fn put_entries(out: &mut Vec<u8>, entries: &[u32]) -> Result<(), OutOfMemory>
    ensures { OnOk result (out.new.items ≡ out.old.items ++ flat_map spec.entry_line entries.now) }
{
    for entry in entries {
        put_entry(out, *entry)?;
    }
    Ok(())
}

/// Appends the lines of the instructions.
fn put_text(out: &mut Vec<u8>, text: &Text) -> Result<(), OutOfMemory>
    ensures { OnOk result (out.new.items ≡ out.old.items ++ flat_map spec.instruction_line text.now) }
{
    for i in 0..text.len() {
        put_instruction(out, text.get(i))?;
    }
    Ok(())
}

/// Appends the lines of the pages.
fn put_pages(out: &mut Vec<u8>, pages: &[PageImage]) -> Result<(), OutOfMemory>
    ensures lines { OnOk result (out.new.items ≡ out.old.items ++ flat_map spec.page_line pages.now) }
    ensures bytes { OnOk result (All (λ p. All (λ b. b < 256) p.bytes) pages.now) }
{
    for page in pages {
        put_page(out, page)?;
    }
    Ok(())
}

/// Appends the lines of the files.
fn put_files(out: &mut Vec<u8>, files: &[FileImage]) -> Result<(), OutOfMemory>
    ensures lines { OnOk result (out.new.items ≡ out.old.items ++ flat_map spec.file_line files.now) }
    ensures bytes { OnOk result (All (λ f. All (λ b. b < 256) f.bytes) files.now) }
{
    for file in files {
        put_file(out, file)?;
    }
    Ok(())
}

/// Appends the lines of the slots.
fn put_slots(out: &mut Vec<u8>, slots: &[SlotImage]) -> Result<(), OutOfMemory>
    ensures { OnOk result (out.new.items ≡ out.old.items ++ flat_map spec.slot_line slots.now) }
{
    for slot in slots {
        put_slot(out, *slot)?;
    }
    Ok(())
}
