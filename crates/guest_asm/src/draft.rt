//! The bytes of the draft that a source makes: an image before it is tested.

ghost use Rattle.std.specs.Prelude.{◌≡◌, ◌++◌, ◌-◌, ◌*◌, ◌≤◌, length, OnOk, IfOk};
ghost use Rattle.std.specs.List.{flat_map};
ghost use Rattle.lwc_types.specs.Outcomes.{Answers};
ghost use Rattle.guest_isa.specs.Spelling as instructions;
ghost use Rattle.guest_image.specs.Spelling.{number};
ghost use Rattle.lwc_types.specs.declared.limits.TheConstants.{MOST_IMAGE_BYTES};
ghost use Rattle.lwc_types.specs.declared.page.TheConstants.{PAGE_BYTES};
ghost use Rattle.guest_asm.specs.Drafts as spec;
ghost use Rattle.guest_asm.specs.Views.{draft_in, immediate_in, label_at, source_in};

use crate::error::{SourceError, SourceRule};
use crate::name::Name;
use crate::operand::Immediate;
use crate::parts::{FileDraft, PageDraft, SlotDraft};
use crate::source::Source;
use guest_image::Form;
use guest_isa::Instr;
use lwc_types::{MOST_IMAGE_BYTES, OutOfMemory, PAGE_BYTES, ReadError};
use std::alloc::Global;
use std::collections::HashMap;

/// Tests that each label that is used is defined.
#[tactic(auto, unfolding(crate::specs::Drafts::resolved))]
pub(crate) fn check_labels(source: &Source<'_>) -> Result<(), SourceError>
    ensures { Answers (λ _. draft_in source.now) result (spec.resolved (source_in source.now)) }
{
    for label in source.uses.iter() {
        if !source.labels.contains_key(&Name { bytes: label.name }) {
            return Err(ReadError::Refused {
                rule: SourceRule::BadLabel,
                at: label.at,
            });
        }
    }
    Ok(())
}

/// The number of bytes of a draft. It is a u128 so that no product or sum can overflow.
#[tactic(auto, unfolding(crate::specs::Drafts::draft_bytes))]
pub(crate) fn draft_length(source: &Source<'_>) -> u128
    ensures { result ≡ length (spec.draft_bytes (draft_in source.now)) }
{
    let text = 8 * source.text.len() as u128;
    let pages = pages_length(source.pages.as_slice());
    let files = files_length(source.files.as_slice());
    let slots = 8 * source.slots.len() as u128;
    let entries = 4 * source.entries.len() as u128;
    28 + text + pages + files + slots + entries
}

/// The bytes of a draft.
#[tactic(auto, unfolding(crate::specs::Drafts::draft_bytes))]
pub(crate) fn draft_bytes(alloc: Global, source: &Source<'_>) -> Result<Vec<u8>, OutOfMemory>
    requires { length (spec.draft_bytes (draft_in source.now)) ≤ MOST_IMAGE_BYTES }
    ensures { IfOk result (λ bytes. bytes.items ≡ spec.draft_bytes (draft_in source.now)) }
{
    let mut out = Vec::with_capacity(alloc, draft_length(source) as usize)?;
    put_header(&mut out, source)?;
    put_text(&mut out, source)?;
    put_pages(&mut out, source.pages.as_slice())?;
    put_files(&mut out, source.files.as_slice())?;
    put_slots(&mut out, source.slots.as_slice())?;
    put_entries(&mut out, source)?;
    Ok(out)
}

/// The number of bytes of pages.
fn pages_length(pages: &[PageDraft]) -> u128
    ensures length { result ≡ length (flat_map spec.page pages.now) }
    ensures few { result ≤ 18446744073709555712 * length pages.now }
{
    let mut length = 0;
    for page in pages {
        length += 4 + page.bytes.len() as u128 + padding(page) as u128;
    }
    length
}

/// The number of bytes of files.
fn files_length(files: &[FileDraft]) -> u128
    ensures length { result ≡ length (flat_map spec.file files.now) }
    ensures few { result ≤ 18446744073709555712 * length files.now }
{
    let mut length = 0;
    for file in files {
        length += 12 + file.bytes.len() as u128;
    }
    length
}

/// The number that an immediate stands for; 0 for a label that is not defined.
fn value_of<'a>(labels: &HashMap<Name<'a>, u32>, imm: &Immediate<'a>) -> u32
    ensures { result ≡ spec.value_of (label_at labels.now) (immediate_in imm.now) }
{
    match imm {
        Immediate::Value(value) => *value,
        Immediate::Label(name) => labels.get(&Name { bytes: *name }).copied().unwrap_or(0),
    }
}

/// Appends a number, in four bytes.
fn put_number(out: &mut Vec<u8>, value: u32) -> Result<(), OutOfMemory>
    ensures { OnOk result (out.new.items ≡ out.old.items ++ number value) }
{
    out.extend_from_slice(&value.to_le_bytes())?;
    Ok(())
}

/// Appends the magic, the counts and the uid.
fn put_header(out: &mut Vec<u8>, source: &Source<'_>) -> Result<(), OutOfMemory>
    requires { length (spec.draft_bytes (draft_in source.now)) ≤ MOST_IMAGE_BYTES }
    ensures { OnOk result (out.new.items ≡ out.old.items ++ spec.header (draft_in source.now)) }
{
    out.extend_from_slice(source.form.unwrap_or(Form::One).magic())?;
    put_number(out, source.text.len() as u32)?;
    put_number(out, source.pages.len() as u32)?;
    put_number(out, source.files.len() as u32)?;
    put_number(out, source.slots.len() as u32)?;
    put_number(out, source.entries.len() as u32)?;
    put_number(out, source.uid.unwrap_or(0))?;
    Ok(())
}

/// Appends the instructions.
fn put_text(out: &mut Vec<u8>, source: &Source<'_>) -> Result<(), OutOfMemory>
    ensures { OnOk result (out.new.items
        ≡ out.old.items ++ flat_map instructions.spelling (draft_in source.now).text) }
{
    for (instr, imm) in source.text.iter() {
        put_instruction(out, instr, value_of(&source.labels, imm))?;
    }
    Ok(())
}

/// Appends an instruction with the number of its immediate.
fn put_instruction(out: &mut Vec<u8>, instr: &Instr, value: u32) -> Result<(), OutOfMemory>
    ensures { OnOk result (out.new.items
        ≡ out.old.items ++ instructions.spelling (record instr.now { imm = value })) }
{
    let [a, b, c, d] = value.to_le_bytes();
    out.extend_from_slice(&[instr.op.number(), instr.rd, instr.ra, instr.rb, a, b, c, d])?;
    Ok(())
}

/// Appends the pages, each a number and the bytes of a whole page.
fn put_pages(out: &mut Vec<u8>, pages: &[PageDraft]) -> Result<(), OutOfMemory>
    ensures { OnOk result (out.new.items ≡ out.old.items ++ flat_map spec.page pages.now) }
{
    for page in pages {
        put_page(out, page)?;
    }
    Ok(())
}

/// The number of zeros after the bytes of a page.
fn padding(page: &PageDraft) -> usize
    ensures { result ≡ PAGE_BYTES - length page.now.bytes }
{
    PAGE_BYTES.saturating_sub(page.bytes.len())
}

/// Appends a page: its number, its bytes and zeros after them.
fn put_page(out: &mut Vec<u8>, page: &PageDraft) -> Result<(), OutOfMemory>
    ensures { OnOk result (out.new.items ≡ out.old.items ++ spec.page page.now) }
{
    put_number(out, page.number)?;
    out.extend_from_slice(page.bytes.as_slice())?;
    out.resize(out.len() + padding(page), 0)?;
    Ok(())
}

/// Appends the files.
fn put_files(out: &mut Vec<u8>, files: &[FileDraft]) -> Result<(), OutOfMemory>
    requires { length (flat_map spec.file files.now) ≤ MOST_IMAGE_BYTES }
    ensures { OnOk result (out.new.items ≡ out.old.items ++ flat_map spec.file files.now) }
{
    for file in files {
        put_file(out, file)?;
    }
    Ok(())
}

/// Appends a file: its owner, whether it is public, its length and its bytes.
fn put_file(out: &mut Vec<u8>, file: &FileDraft) -> Result<(), OutOfMemory>
    requires { length file.now.bytes ≤ MOST_IMAGE_BYTES }
    ensures { OnOk result (out.new.items ≡ out.old.items ++ spec.file file.now) }
{
    put_number(out, file.owner)?;
    put_number(out, file.public)?;
    put_number(out, file.bytes.len() as u32)?;
    out.extend_from_slice(file.bytes.as_slice())?;
    Ok(())
}

/// Appends the slots, each with its file.
fn put_slots(out: &mut Vec<u8>, slots: &[SlotDraft]) -> Result<(), OutOfMemory>
    ensures { OnOk result (out.new.items ≡ out.old.items ++ flat_map spec.slot slots.now) }
{
    for slot in slots {
        put_number(out, slot.slot)?;
        put_number(out, slot.file)?;
    }
    Ok(())
}

/// Appends where each thread begins.
fn put_entries(out: &mut Vec<u8>, source: &Source<'_>) -> Result<(), OutOfMemory>
    ensures { OnOk result (out.new.items ≡ out.old.items ++ flat_map number (draft_in source.now).entries) }
{
    for entry in source.entries.iter() {
        put_number(out, value_of(&source.labels, entry))?;
    }
    Ok(())
}
