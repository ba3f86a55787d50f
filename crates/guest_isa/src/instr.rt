ghost use Rattle.std.specs.Prelude.{◌≡◌, ◌^◌};
ghost use Rattle.guest_isa.specs.Instructions.{HasFieldsInRange, IsInstruction, fits, is_instruction, sx};
ghost use Rattle.guest_isa.specs.declared.instr.Instr.{Instr};

use crate::op::Op;

/// An operation with three fields for registers and a number. It is an instruction of the table where
/// [`Instr::is_instruction`] says so.
#[derive(Clone, Copy, Debug, PartialEq, Eq)]
pub struct Instr {
    /// What it does.
    pub op: Op,
    /// The register that is written, 0 to 15.
    pub rd: u8,
    /// The first register that is read, 0 to 15.
    pub ra: u8,
    /// The second register that is read, 0 to 15.
    pub rb: u8,
    /// A number, a place in the text, or a signed number of 32 bits.
    pub imm: u32,
}

/// The number of registers.
const REGISTERS: u8 = 16;

impl Instr {
    /// Whether the fields fit the form of the operation: a register that is used is below 16, and a field
    /// that is not used is 0.
    #[tactic(auto, unfolding(crate::specs::Instructions::is_instruction))]
    pub fn is_instruction(&self) -> bool
        ensures { result ≡ is_instruction self.now }
    {
        let form = self.op.form();
        register_fits(form.rd, self.rd)
            && register_fits(form.ra, self.ra)
            && register_fits(form.rb, self.rb)
            && number_fits(form.imm, self.imm)
    }

    /// imm read as a signed number of 32 bits, modulo 2^64.
    pub fn sx(&self) -> u64
        ensures { result ≡ sx self.now.imm }
    {
        i64::from(self.imm.cast_signed()).cast_unsigned()
    }
}

/// Whether a field for a register may have this number.
fn register_fits(used: bool, number: u8) -> bool
    ensures { result ≡ fits used 16 number }
{
    if used {
        number < REGISTERS
    } else {
        number == 0
    }
}

/// Whether a field for a number may have this one.
fn number_fits(used: bool, number: u32) -> bool
    ensures { result ≡ fits used (2 ^ 32) number }
{
    used || number == 0
}

/// In an instruction of the table each field for a register is below 16, used or not, and imm has 32 bits.
#[tactic(auto, using(crate::proofs::Fields::in_range))]
pub fn fields_are_in_range()
    ensures { (i : Instr) → IsInstruction i → HasFieldsInRange i }
{}
