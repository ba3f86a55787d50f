ghost use Rattle.std.specs.Prelude.{◌≡◌, ◌<◌, ◌≤◌, IfOk, length, Some, slice_get};
ghost use Rattle.guest_isa.specs.Instructions.{IsInstruction, IsText};

use crate::instr::Instr;
use std::alloc::{AllocError, Global};
use std::marker::Model;

/// The instructions of a program: 1 to 65536 of them.
#[derive(Drop)]
pub struct Text {
    list: Vec<Instr>,
}

impl Model for Text {
    ghost use Rattle.std.specs.Prelude.{List};
    ghost use Rattle.guest_isa.specs.declared.instr.Instr.{Instr};

    ghost Value = { List Instr };

    ghost use Rattle.guest_isa.specs.Instructions.{IsText};

    ghost view = { λ t. t.list.items };

    ghost invariant = { λ t. IsText t.list.items };
}

impl Text {
    /// The text of these instructions.
    pub fn of(list: Vec<Instr>) -> Text
        requires { IsText list.items }
        ensures { result ≡ list.items }
    {
        Text { list }
    }

    /// A copy. The only error is out of memory.
    pub fn copy(&self, alloc: Global) -> Result<Text, AllocError>
        ensures { IfOk result (λ copy. copy ≡ self.now) }
    {
        Ok(Text {
            list: Vec::from_slice(alloc, self.list.as_slice())?,
        })
    }

    /// The instructions, in the memory that the text was made of.
    pub fn into_vec(self) -> Vec<Instr>
        ensures list { result.items ≡ self }
        ensures text { IsText result.items }
    {
        let Text { list } = self;
        list
    }

    /// The number of instructions, 1 to 65536.
    pub fn len(&self) -> usize
        ensures length { result ≡ length self.now }
        ensures text { IsText self.now }
    {
        self.list.len()
    }

    /// The instructions.
    pub fn as_slice(&self) -> &[Instr]
        ensures value { result.now ≡ self.now }
        ensures text { IsText self.now }
    {
        self.list.as_slice()
    }

    /// The instruction at an index.
    pub fn get(&self, index: usize) -> &Instr
        requires { index < length self.now }
        ensures value { slice_get self.now index ≡ Some result.now }
        ensures instruction { IsInstruction result.now }
    {
        &self.list[index]
    }
}
