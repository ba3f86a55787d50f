use lwc_base::Refusal;

/// What a plain call answers: a value, the code that its thread ends with, or why it was refused.
#[derive(Clone, Copy, PartialEq, Eq)]
pub enum CallAnswer {
    Value(u64),
    Exit(u64),
    Refused(Refusal),
}
