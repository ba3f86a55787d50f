//! What a line says.

ghost use Rattle.std.specs.Prelude.{◌≡◌, ◌≢◌, ◌==◌, ◌+◌, ℕ, List, length, slice_index, IfOk, Ok, Some, true};
ghost use Rattle.std.specs.List.{list_all};
ghost use Rattle.std.specs.Option.{option_map};
ghost use Rattle.guest_asm.specs.Lexis.{is_plain, text_of, words};
ghost use Rattle.guest_asm.specs.Numbers.{register_of};
ghost use Rattle.guest_asm.specs.Statements as spec;
ghost use Rattle.guest_isa.specs.declared.op.Field.TheVariants.{Imm};
ghost use Rattle.guest_asm.specs.Views.{Gives, coded_in, immediate_in, line_in, statement_in};

use crate::error::SourceRule;
use crate::mnemonics::op_named;
use crate::operand::{
    Immediate, has_words, is_bytes_text, one_word, read_immediate, read_number, read_register,
    three_words, two_words,
};
use crate::parts::SlotDraft;
use crate::words::{FirstLine, all_plain, first_parts, next_word, short_register};
use guest_image::Form;
use guest_isa::{Field, Instr, Op};
use lwc_types::PAGE_BYTES;

/// What a line says beside its label. The bytes of a page and of a file are still hexadecimal.
#[derive(Clone, Copy)]
pub(crate) enum Statement<'a> {
    Instruction(Instr, Immediate<'a>),
    Uid(u32),
    OfForm(Form),
    Entry(Immediate<'a>),
    Page(u32, &'a [u8]),
    File(u32, u32, &'a [u8]),
    Slot(SlotDraft),
}

/// A line: its label and its statement.
#[derive(Clone, Copy)]
pub(crate) struct Line<'a> {
    pub(crate) label: Option<&'a [u8]>,
    pub(crate) statement: Option<Statement<'a>>,
}

/// Reads a line; `has_uid` and `has_form` say whether earlier lines have `.uid` and `.form`, and `clean` that no
/// byte in front of the line's comment needs a look.
#[tactic(auto, unfolding(crate::specs::Statements::line_of))]
pub(crate) fn read_line<'a>(
    has_uid: bool,
    has_form: bool,
    clean: bool,
    line: FirstLine<'a>,
) -> Result<Line<'a>, SourceRule>
    requires text { line.text.now ≡ text_of line.line.now }
    requires plain { clean ≡ true → list_all is_plain (text_of line.line.now) ≡ true }
    ensures { Gives line_in result
        (spec.line_of (record { uid = has_uid; form = has_form }) line.entry.line.now) }
{
    let text = line.text;
    if !clean && !all_plain(text) {
        return Err(SourceRule::BadLine);
    }
    let (label, first) = first_parts(text);
    let Some((name, rest)) = first else {
        return Ok(Line {
            label,
            statement: None,
        });
    };
    let statement = read_named(has_uid, has_form, name, rest)?;
    Ok(Line {
        label,
        statement: Some(statement),
    })
}

/// Reads the directive or instruction with a name.
fn read_named<'a>(
    has_uid: bool,
    has_form: bool,
    name: &[u8],
    text: &'a [u8],
) -> Result<Statement<'a>, SourceRule>
    ensures { Gives statement_in result
        (spec.named (record { uid = has_uid; form = has_form }) name.now (words text.now)) }
{
    if is_dotted(name) {
        read_directive(has_uid, has_form, name, text)
    } else {
        read_operation(name, text)
    }
}

/// Whether a name begins with a dot, as all directives do.
fn is_dotted(name: &[u8]) -> bool
    ensures { result ≡ (slice_index name.now 0 == 46) }
{
    matches!(name, [b'.', ..])
}

/// Reads the instruction with a mnemonic.
fn read_operation<'a>(name: &[u8], text: &'a [u8]) -> Result<Statement<'a>, SourceRule>
    ensures { Gives statement_in result
        (spec.instruction_by (spec.op_named name.now) (words text.now)) }
{
    match op_named(name) {
        Some(op) => read_instruction(op, text),
        None => Err(SourceRule::BadLine),
    }
}

/// Reads the directive with a name that begins with a dot.
#[tactic(auto, using(crate::proofs::Finds::no_dotted_op), unfolding(crate::specs::Statements::named))]
fn read_directive<'a>(
    has_uid: bool,
    has_form: bool,
    name: &[u8],
    text: &'a [u8],
) -> Result<Statement<'a>, SourceRule>
    requires { slice_index name.now 0 ≡ 46 }
    ensures { Gives statement_in result
        (spec.named (record { uid = has_uid; form = has_form }) name.now (words text.now)) }
{
    if name == b".uid".as_slice() {
        if has_uid {
            return Err(SourceRule::BadLine);
        }
        return read_uid(text);
    }
    if name == b".form".as_slice() {
        if has_form {
            return Err(SourceRule::BadLine);
        }
        return read_form(text);
    }
    if name == b".entry".as_slice() {
        return read_entry(text);
    }
    if name == b".page".as_slice() {
        return read_page(text);
    }
    if name == b".file".as_slice() {
        return read_file(text);
    }
    if name == b".slot".as_slice() {
        return read_slot(text);
    }
    Err(SourceRule::BadLine)
}

/// Reads `.uid N`.
fn read_uid(text: &[u8]) -> Result<Statement<'_>, SourceRule>
    ensures { Gives statement_in result (spec.uid_of (words text.now)) }
{
    let word = one_word(text)?;
    let uid = read_number(word)?;
    Ok(Statement::Uid(uid))
}

/// Reads `.form N`.
fn read_form(text: &[u8]) -> Result<Statement<'_>, SourceRule>
    ensures { Gives statement_in result (spec.form_of (words text.now)) }
{
    let word = one_word(text)?;
    match read_number(word)? {
        1 => Ok(Statement::OfForm(Form::One)),
        2 => Ok(Statement::OfForm(Form::Two)),
        _ => Err(SourceRule::BadOperand),
    }
}

/// Reads `.entry N`.
fn read_entry(text: &[u8]) -> Result<Statement<'_>, SourceRule>
    ensures { Gives statement_in result (spec.entry_of (words text.now)) }
{
    let word = one_word(text)?;
    let entry = read_immediate(word)?;
    Ok(Statement::Entry(entry))
}

/// Reads `.page P BYTES`.
fn read_page(text: &[u8]) -> Result<Statement<'_>, SourceRule>
    ensures { Gives statement_in result (spec.page_of (words text.now)) }
{
    let (number, bytes) = two_words(text)?;
    let number = read_number(number)?;
    if !is_bytes_text(2 * PAGE_BYTES, bytes) {
        return Err(SourceRule::BadOperand);
    }
    Ok(Statement::Page(number, bytes))
}

/// Reads `.file OWNER PUBLIC BYTES`.
fn read_file(text: &[u8]) -> Result<Statement<'_>, SourceRule>
    ensures { Gives statement_in result (spec.file_of (words text.now)) }
{
    let (owner, public, bytes) = three_words(text)?;
    let owner = read_number(owner)?;
    let public = read_number(public)?;
    if !is_bytes_text(bytes.len(), bytes) {
        return Err(SourceRule::BadOperand);
    }
    Ok(Statement::File(owner, public, bytes))
}

/// Reads `.slot S FILE`.
fn read_slot(text: &[u8]) -> Result<Statement<'_>, SourceRule>
    ensures { Gives statement_in result (spec.slot_of (words text.now)) }
{
    let (slot, file) = two_words(text)?;
    let slot = read_number(slot)?;
    let file = read_number(file)?;
    Ok(Statement::Slot(SlotDraft { slot, file }))
}

/// Reads an instruction, with one operand for each field of its operation.
#[tactic(auto, unfolding(crate::specs::Statements::instruction_of))]
fn read_instruction(op: Op, text: &[u8]) -> Result<Statement<'_>, SourceRule>
    ensures { Gives statement_in result (spec.instruction_of op (words text.now)) }
{
    let fields = op.fields();
    match read_fields(op, fields, text) {
        Ok((instr, imm, rest)) => {
            if next_word(rest).is_some() {
                return Err(SourceRule::BadLine);
            }
            Ok(Statement::Instruction(instr, imm))
        }
        // A wrong number of operands comes before an operand that is bad.
        Err(rule) => {
            if has_words(text, fields.len()) {
                Err(rule)
            } else {
                Err(SourceRule::BadLine)
            }
        }
    }
}

/// Reads the first words as the operands of fields. Answers what follows them, too.
fn read_fields<'a>(
    op: Op,
    fields: &[Field],
    text: &'a [u8],
) -> Result<(Instr, Immediate<'a>, &'a [u8]), SourceRule>
    ensures read { Gives (λ x. coded_in (x.0, x.1)) result
        (spec.with_fields fields.now (words text.now) (spec.blank op)) }
    ensures count { IfOk result (λ x. length fields.now + length (words x.2.now) ≡ length (words text.now)) }
{
    let mut instr = Instr {
        op,
        rd: 0,
        ra: 0,
        rb: 0,
        imm: 0,
    };
    let mut imm = Immediate::Value(0);
    let mut rest = text;
    for field in fields {
        if is_register(*field) {
            if let Some((number, after)) = short_register(rest) {
                instr = with_register(*field, number, instr);
                rest = after;
                continue;
            }
        }
        let Some((word, after)) = next_word(rest) else {
            return Err(SourceRule::BadLine);
        };
        (instr, imm) = read_field(*field, word, instr, imm)?;
        rest = after;
    }
    Ok((instr, imm, rest))
}

/// Whether a field is a register.
fn is_register(field: Field) -> bool
    ensures { result ≡ true → field ≢ Imm }
{
    match field {
        Field::Rd | Field::Ra | Field::Rb => true,
        Field::Imm => false,
    }
}

/// An instruction with a register in a field.
fn with_register(field: Field, number: u8, instr: Instr) -> Instr
    ensures { (word : List ℕ) → (imm : spec.Immediate) → field ≢ Imm → register_of word ≡ Some number
        → spec.with_field field word (instr, imm) ≡ Ok (result, imm) }
{
    match field {
        Field::Rd => Instr {
            rd: number,
            ..instr
        },
        Field::Ra => Instr {
            ra: number,
            ..instr
        },
        Field::Rb => Instr {
            rb: number,
            ..instr
        },
        Field::Imm => instr,
    }
}

/// Reads a word as the operand of a field.
fn read_field<'a>(
    field: Field,
    word: &'a [u8],
    instr: Instr,
    imm: Immediate<'a>,
) -> Result<(Instr, Immediate<'a>), SourceRule>
    ensures { Gives coded_in result (spec.with_field field word.now (instr, immediate_in imm.entry)) }
{
    match field {
        Field::Rd => {
            let rd = read_register(word)?;
            Ok((Instr { rd, ..instr }, imm))
        }
        Field::Ra => {
            let ra = read_register(word)?;
            Ok((Instr { ra, ..instr }, imm))
        }
        Field::Rb => {
            let rb = read_register(word)?;
            Ok((Instr { rb, ..instr }, imm))
        }
        Field::Imm => {
            let imm = read_immediate(word)?;
            Ok((instr, imm))
        }
    }
}
