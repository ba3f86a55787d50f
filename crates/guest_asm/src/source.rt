//! A source, line after line.

ghost use Rattle.std.specs.Prelude.{◌≡◌, ◌<◌, ◌≤◌, ◌^◌, ◌+◌, length, OnOk, IfErr, IfOk, Ok, true};
ghost use Rattle.std.specs.List.{list_all};
ghost use Rattle.std.specs.Option.{option_map};
ghost use Rattle.guest_asm.specs.Lexis.{is_plain, lines, text_of};
ghost use Rattle.guest_asm.specs.Statements.{bytes_of};
ghost use Rattle.guest_asm.specs.Sources as spec;
ghost use Rattle.guest_asm.specs.Views.{bytes_in, immediate_in, source_in, statement_in};
ghost use Rattle.lwc_types.specs.Outcomes.{Answers};
ghost use Rattle.lwc_types.specs.declared.reading.ReadError.TheVariants.{OutOfMemory};

use crate::error::{SourceError, SourceRule};
use crate::name::Name;
use crate::operand::Immediate;
use crate::parts::{FileDraft, PageDraft, SlotDraft};
use crate::statement::{Statement, read_line};
use crate::words::{FirstLine, all_clean, next_line};
use guest_image::Form;
use guest_isa::Instr;
use hex::FromHexError;
use lwc_types::{ReadError, Sequence};
use std::alloc::Global;
use std::collections::HashMap;

/// The use of a label, and the offset of its line.
#[derive(Clone, Copy)]
pub(crate) struct Use<'a> {
    pub(crate) at: u64,
    pub(crate) name: &'a [u8],
}

/// What lines have said.
#[derive(Drop)]
pub(crate) struct Source<'a> {
    pub(crate) labels: HashMap<Name<'a>, u32>,
    pub(crate) uses: Vec<Use<'a>>,
    pub(crate) uid: Option<u32>,
    pub(crate) form: Option<Form>,
    pub(crate) text: Vec<(Instr, Immediate<'a>)>,
    pub(crate) pages: Vec<PageDraft>,
    pub(crate) files: Vec<FileDraft>,
    pub(crate) slots: Vec<SlotDraft>,
    pub(crate) entries: Vec<Immediate<'a>>,
}

impl<'a> Source<'a> {
    /// Reads every line.
    pub(crate) fn read(alloc: Global, bytes: &'a [u8]) -> Result<Source<'a>, SourceError>
        requires { length bytes.now < 2 ^ 31 }
        ensures { Answers source_in result (spec.with_lines 0 (lines bytes.now) spec.nothing) }
    {
        let clean = all_clean(bytes);
        let mut source = Source::new(alloc);
        let mut rest = bytes;
        while !rest.is_empty() {
            let line = next_line(rest);
            source.add_line(alloc, clean, line, (bytes.len() - rest.len()) as u64)?;
            rest = line.after;
        }
        Ok(source)
    }

    /// Nothing yet.
    fn new(alloc: Global) -> Source<'a>
        ensures { source_in result ≡ spec.nothing }
    {
        Source {
            labels: HashMap::new(alloc),
            uses: Vec::new(alloc),
            uid: None,
            form: None,
            text: Vec::new(alloc),
            pages: Vec::new(alloc),
            files: Vec::new(alloc),
            slots: Vec::new(alloc),
            entries: Vec::new(alloc),
        }
    }

    /// Adds the line at an offset; `clean` says that no byte in front of its comment needs a look.
    #[tactic(auto, unfolding(crate::specs::Sources::with_line))]
    fn add_line(
        &mut self,
        alloc: Global,
        clean: bool,
        line: FirstLine<'a>,
        at: u64,
    ) -> Result<(), SourceError>
        requires few { length self.old.text.items + 1 < 2 ^ 32 }
        requires text { line.text.now ≡ text_of line.line.now }
        requires clean { clean ≡ true → list_all is_plain (text_of line.line.now) ≡ true }
        ensures added { Answers (λ _. source_in self.new) result
            (spec.at_offset at (spec.with_line at line.entry.line.now (source_in self.old)) Ok) }
        ensures count { OnOk result (length self.new.text.items ≤ length self.old.text.items + 1) }
    {
        let line = match read_line(self.uid.is_some(), self.form.is_some(), clean, line) {
            Ok(line) => line,
            Err(rule) => return Err(ReadError::Refused { rule, at }),
        };
        self.add_label(line.label, at)?;
        self.add_statement(alloc, line.statement, at)
    }

    /// Adds the label of a line, if it has one.
    fn add_label(&mut self, label: Option<&'a [u8]>, at: u64) -> Result<(), SourceError>
        requires { length self.old.text.items < 2 ^ 32 }
        ensures { Answers (λ _. source_in self.new) result
            (spec.at_offset at (spec.with_label (option_map bytes_in label.entry) (source_in self.old)) Ok) }
    {
        let Some(name) = label else {
            return Ok(());
        };
        if self
            .labels
            .insert(Name { bytes: name }, self.text.len() as u32)?
            .is_some()
        {
            return Err(ReadError::Refused {
                rule: SourceRule::BadLabel,
                at,
            });
        }
        Ok(())
    }

    /// Adds the statement of a line, if it has one.
    fn add_statement(
        &mut self,
        alloc: Global,
        statement: Option<Statement<'a>>,
        at: u64,
    ) -> Result<(), SourceError>
        ensures added { OnOk result (source_in self.new
            ≡ spec.with_statement at (option_map statement_in statement.entry) (source_in self.old)) }
        ensures memory { IfErr result (λ e. e ≡ OutOfMemory) }
    {
        match statement {
            None => {}
            Some(Statement::Instruction(instr, imm)) => {
                self.text.push((instr, imm))?;
                self.add_use(imm, at)?;
            }
            Some(Statement::Uid(uid)) => self.uid = Some(uid),
            Some(Statement::OfForm(form)) => self.form = Some(form),
            Some(Statement::Entry(entry)) => {
                self.entries.push(entry)?;
                self.add_use(entry, at)?;
            }
            Some(Statement::Page(number, text)) => {
                let bytes = bytes_of(alloc, text)?;
                self.pages.push(PageDraft { number, bytes })?;
            }
            Some(Statement::File(owner, public, text)) => {
                let bytes = bytes_of(alloc, text)?;
                self.files.push(FileDraft {
                    owner,
                    public,
                    bytes,
                })?;
            }
            Some(Statement::Slot(slot)) => self.slots.push(slot)?,
        }
        Ok(())
    }

    /// Adds the use of a label, if an immediate is one.
    fn add_use(&mut self, imm: Immediate<'a>, at: u64) -> Result<(), SourceError>
        ensures added { OnOk result (source_in self.new
            ≡ spec.with_uses (spec.uses_in at (immediate_in imm.entry)) (source_in self.old)) }
        ensures memory { IfErr result (λ e. e ≡ OutOfMemory) }
    {
        if let Immediate::Label(name) = imm {
            self.uses.push(Use { at, name })?;
        }
        Ok(())
    }
}

/// The bytes of hexadecimal, and none of `-`.
#[tactic(auto, unfolding(crate::specs::Statements::bytes_of))]
fn bytes_of(alloc: Global, text: &[u8]) -> Result<Sequence<u8>, SourceError>
    ensures bytes { IfOk result (λ bytes. bytes ≡ bytes_of text.now) }
    ensures memory { IfErr result (λ e. e ≡ OutOfMemory) }
{
    if text == b"-".as_slice() {
        return Ok(Sequence::of(Vec::new(alloc)));
    }
    match hex::decode(alloc, text) {
        Ok(bytes) => Ok(Sequence::of(bytes)),
        Err(FromHexError::OutOfMemory) => Err(ReadError::OutOfMemory),
        Err(_) => Ok(Sequence::of(Vec::new(alloc))),
    }
}
