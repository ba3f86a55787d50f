use guest_isa::Instr;
use lwc_types::Regs;

/// What comes after private instructions.
#[derive(Clone, Copy, Debug, PartialEq, Eq)]
pub enum Next {
    /// A shared instruction, which is at pc.
    Shared(Instr),
    /// More private instructions, in a later step.
    Pause,
    /// Nothing: pc is not below the number of instructions.
    BadPc,
}

/// How far a thread came by private instructions.
#[derive(Clone, Copy, PartialEq, Eq)]
pub struct Advance {
    /// The registers before the first instruction.
    pub before: Regs,
    /// The registers after the last one.
    pub after: Regs,
    /// What comes next.
    pub next: Next,
}
