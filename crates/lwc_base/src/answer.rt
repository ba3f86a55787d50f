use lwc_types::{Name, Refusal, Regs};

/// What a call of a guest answers: the registers that its thread continues with, or why the call was refused.
#[derive(Clone, Copy, PartialEq, Eq)]
pub enum Answer {
    Done(Regs),
    Refused(Refusal),
}

/// What a switch answers: the context that the thread goes on in, with the registers that it has there, or
/// why the call was refused.
#[derive(Clone, Copy, PartialEq, Eq)]
pub enum Moved {
    To { context: Name, regs: Regs },
    Refused(Refusal),
}
