//! Writing an image.

ghost use Rattle.std.specs.Prelude.{◌≡◌, ◌++◌, ◌<◌, ◌^◌, length, OnOk, IfOk, All};
ghost use Rattle.std.specs.List.{flat_map};
ghost use Rattle.guest_isa.specs.Spelling as instructions;
ghost use Rattle.guest_image.specs.Limits.{IsImage};
ghost use Rattle.guest_image.specs.Spelling.{number, flag, header, header_of, page, file};
ghost use Rattle.guest_image.specs.Spelling.{file as file_spelling, slot, spelling};

use crate::header::Header;
use crate::image::{Form, Image, PageImage, SlotImage};
use guest_isa::{Text, encode};
use lwc_types::{FileImage, OutOfMemory};
use std::alloc::Global;

/// The bytes of an image (`spelling`), unless memory runs out.
#[tactic(auto, unfolding(crate::specs::Spelling::spelling))]
pub fn write_image(alloc: Global, image: &Image) -> Result<Vec<u8>, OutOfMemory>
    requires { IsImage image.now }
    ensures { IfOk result (λ bytes. bytes.items ≡ spelling image.now) }
{
    let mut out = Vec::new(alloc);
    put_header(&mut out, image.form, &header_of(image))?;
    put_text(&mut out, &image.text)?;
    put_pages(&mut out, image.pages.as_slice())?;
    put_files(&mut out, image.files.as_slice())?;
    put_slots(&mut out, image.slots.as_slice())?;
    put_entries(&mut out, image.entries.as_slice())?;
    Ok(out)
}

/// Appends a number, in four bytes.
fn put_number(out: &mut Vec<u8>, value: u32) -> Result<(), OutOfMemory>
    ensures { OnOk result (out.new.items ≡ out.old.items ++ number value) }
{
    out.extend_from_slice(&value.to_le_bytes())?;
    Ok(())
}

/// Appends 1 or 0, in four bytes.
fn put_flag(out: &mut Vec<u8>, value: bool) -> Result<(), OutOfMemory>
    ensures { OnOk result (out.new.items ≡ out.old.items ++ flag value) }
{
    put_number(out, if value { 1 } else { 0 })
}

/// The number of values of each list, and the uid.
fn header_of(image: &Image) -> Header
    requires { IsImage image.now }
    ensures { result ≡ header_of image.now }
{
    Header {
        instructions: image.text.len() as u32,
        pages: image.pages.len() as u32,
        files: image.files.len() as u32,
        slots: image.slots.len() as u32,
        threads: image.entries.len() as u32,
        uid: image.uid,
    }
}

/// Appends the magic of a form, the counts and the uid.
fn put_header(out: &mut Vec<u8>, form: Form, head: &Header) -> Result<(), OutOfMemory>
    ensures { OnOk result (out.new.items ≡ out.old.items ++ header form head.now) }
{
    out.extend_from_slice(form.magic())?;
    put_number(out, head.instructions)?;
    put_number(out, head.pages)?;
    put_number(out, head.files)?;
    put_number(out, head.slots)?;
    put_number(out, head.threads)?;
    put_number(out, head.uid)?;
    Ok(())
}

/// Appends the instructions.
fn put_text(out: &mut Vec<u8>, text: &Text) -> Result<(), OutOfMemory>
    ensures { OnOk result (out.new.items ≡ out.old.items ++ flat_map instructions.spelling text.now) }
{
    for i in 0..text.len() {
        out.extend_from_slice(&encode(text.get(i)))?;
    }
    Ok(())
}

/// Appends the pages, each a number and its bytes.
fn put_pages(out: &mut Vec<u8>, pages: &[PageImage]) -> Result<(), OutOfMemory>
    ensures { OnOk result (out.new.items ≡ out.old.items ++ flat_map page pages.now) }
{
    for page in pages {
        put_number(out, u32::from(page.number))?;
        out.extend_from_slice(page.bytes.as_slice())?;
    }
    Ok(())
}

/// Appends a file: its owner, whether it is public, its length and its bytes.
fn put_file(out: &mut Vec<u8>, file: &FileImage) -> Result<(), OutOfMemory>
    requires { length file.now.bytes < 2 ^ 32 }
    ensures { OnOk result (out.new.items ≡ out.old.items ++ file_spelling file.now) }
{
    put_number(out, file.owner)?;
    put_flag(out, file.public)?;
    put_number(out, file.bytes.len() as u32)?;
    out.extend_from_slice(file.bytes.as_slice())?;
    Ok(())
}

/// Appends the files.
fn put_files(out: &mut Vec<u8>, files: &[FileImage]) -> Result<(), OutOfMemory>
    requires { All (λ f. length f.bytes < 2 ^ 32) files.now }
    ensures { OnOk result (out.new.items ≡ out.old.items ++ flat_map file files.now) }
{
    for file in files {
        put_file(out, file)?;
    }
    Ok(())
}

/// Appends the slots, each with its file.
fn put_slots(out: &mut Vec<u8>, slots: &[SlotImage]) -> Result<(), OutOfMemory>
    ensures { OnOk result (out.new.items ≡ out.old.items ++ flat_map slot slots.now) }
{
    for slot in slots {
        put_number(out, u32::from(slot.slot))?;
        put_number(out, u32::from(slot.file))?;
    }
    Ok(())
}

/// Appends where each thread begins.
fn put_entries(out: &mut Vec<u8>, entries: &[u32]) -> Result<(), OutOfMemory>
    ensures { OnOk result (out.new.items ≡ out.old.items ++ flat_map number entries.now) }
{
    for entry in entries {
        put_number(out, *entry)?;
    }
    Ok(())
}
