//! The lines of a source, each appended to a text.

ghost use Rattle.std.specs.Prelude.{◌≡◌, ◌<◌, ◌++◌, All, OnOk, IfOk, codes, decimal, string_bytes};
ghost use Rattle.guest_dis.specs.Listing as spec;

use guest_image::{Form, PageImage, SlotImage};
use guest_isa::{Field, Instr};
use lwc_types::{FileImage, OutOfMemory};
use std::alloc::Global;

/// Appends the line of the form, if it is 2.
pub(crate) fn put_form(out: &mut Vec<u8>, form: Form) -> Result<(), OutOfMemory>
    ensures { OnOk result (out.new.items ≡ out.old.items ++ spec.form_line form) }
{
    if form == Form::Two {
        out.extend_from_slice(b".form 2\n")?;
    }
    Ok(())
}

/// Appends the line of the uid.
pub(crate) fn put_uid(out: &mut Vec<u8>, uid: u32) -> Result<(), OutOfMemory>
    ensures { OnOk result (out.new.items ≡ out.old.items ++ spec.uid_line uid) }
{
    let line = format!(in *out.allocator(); ".uid {uid}\n")?;
    out.extend_from_slice(line.as_bytes())?;
    Ok(())
}

/// Appends the line of an entry.
pub(crate) fn put_entry(out: &mut Vec<u8>, entry: u32) -> Result<(), OutOfMemory>
    ensures { OnOk result (out.new.items ≡ out.old.items ++ spec.entry_line entry) }
{
    let line = format!(in *out.allocator(); ".entry {entry}\n")?;
    out.extend_from_slice(line.as_bytes())?;
    Ok(())
}

/// Appends the line of an instruction.
pub(crate) fn put_instruction(out: &mut Vec<u8>, instr: &Instr) -> Result<(), OutOfMemory>
    ensures { OnOk result (out.new.items ≡ out.old.items ++ spec.instruction_line instr.now) }
{
    out.extend_from_slice(instr.op.mnemonic())?;
    put_operands(out, instr)?;
    out.extend_from_slice(b"\n")?;
    Ok(())
}

/// Appends the operands of an instruction.
fn put_operands(out: &mut Vec<u8>, instr: &Instr) -> Result<(), OutOfMemory>
    ensures { OnOk result (out.new.items
        ≡ out.old.items ++ spec.operands_after (codes " ") (spec.operands_of instr.now)) }
{
    let mut separator = b" ".as_slice();
    for field in instr.op.fields() {
        out.extend_from_slice(separator)?;
        put_operand(out, instr, *field)?;
        separator = b", ";
    }
    Ok(())
}

/// Appends the operand of a field.
fn put_operand(out: &mut Vec<u8>, instr: &Instr, field: Field) -> Result<(), OutOfMemory>
    ensures { OnOk result (out.new.items ≡ out.old.items ++ spec.operand_for instr.now field) }
{
    let alloc = *out.allocator();
    let Instr {
        rd,
        ra,
        rb,
        imm,
        ..
    } = *instr;
    let text = match field {
        Field::Rd => format!(in alloc; "r{rd}")?,
        Field::Ra => format!(in alloc; "r{ra}")?,
        Field::Rb => format!(in alloc; "r{rb}")?,
        Field::Imm => format!(in alloc; "{imm}")?,
    };
    out.extend_from_slice(text.as_bytes())?;
    Ok(())
}

/// Appends the line of a page.
pub(crate) fn put_page(out: &mut Vec<u8>, page: &PageImage) -> Result<(), OutOfMemory>
    ensures line { OnOk result (out.new.items ≡ out.old.items ++ spec.page_line page.now) }
    ensures bytes { OnOk result (All (λ b. b < 256) page.now.bytes) }
{
    let number = page.number;
    let bytes = bytes_text(*out.allocator(), trimmed(page.bytes.as_slice()))?;
    let line = format!(in *out.allocator(); ".page {number} {bytes}\n")?;
    out.extend_from_slice(line.as_bytes())?;
    Ok(())
}

/// Appends the line of a file.
pub(crate) fn put_file(out: &mut Vec<u8>, file: &FileImage) -> Result<(), OutOfMemory>
    ensures line { OnOk result (out.new.items ≡ out.old.items ++ spec.file_line file.now) }
    ensures bytes { OnOk result (All (λ b. b < 256) file.now.bytes) }
{
    let owner = file.owner;
    let public = u8::from(file.public);
    let bytes = bytes_text(*out.allocator(), file.bytes.as_slice())?;
    let line = format!(in *out.allocator(); ".file {owner} {public} {bytes}\n")?;
    out.extend_from_slice(line.as_bytes())?;
    Ok(())
}

/// Appends the line of a slot.
pub(crate) fn put_slot(out: &mut Vec<u8>, slot: SlotImage) -> Result<(), OutOfMemory>
    ensures { OnOk result (out.new.items ≡ out.old.items ++ spec.slot_line slot) }
{
    let SlotImage { slot, file } = slot;
    let line = format!(in *out.allocator(); ".slot {slot} {file}\n")?;
    out.extend_from_slice(line.as_bytes())?;
    Ok(())
}

/// Bytes without trailing zeros.
fn trimmed(bytes: &[u8]) -> &[u8]
    ensures front { result.now ≡ spec.trimmed bytes.now }
    ensures bytes { All (λ b. b < 256) bytes.now }
{
    let mut count = bytes.len();
    while count > 0 && bytes[count - 1] == 0 {
        count -= 1;
    }
    &bytes[..count]
}

/// Bytes in lower-case hexadecimal, or `-` where there are none.
fn bytes_text(alloc: Global, bytes: &[u8]) -> Result<String, OutOfMemory>
    ensures text { IfOk result (λ text. string_bytes text ≡ spec.bytes_text bytes.now) }
    ensures bytes { OnOk result (All (λ b. b < 256) bytes.now) }
{
    if bytes.is_empty() {
        Ok(String::from_str(alloc, "-")?)
    } else {
        Ok(hex::encode(alloc, bytes)?)
    }
}
