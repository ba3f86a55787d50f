ghost use Rattle.std.specs.Prelude.{◌≡◌};
ghost use Rattle.lwc_syscall.specs.Plain as spec;

/// A plain call: one of a context's files, console, pages and credential, or the end of its thread.
#[derive(Clone, Copy, PartialEq, Eq)]
pub enum PlainCall {
    Open,
    Close,
    Dup,
    Read,
    Write,
    Map,
    Unmap,
    GetUid,
    SetUid,
    Exit,
}

impl PlainCall {
    /// The plain call of a number, 1 to 10; no other number has one.
    #[inline(always)]
    pub fn from_number(number: u64) -> Option<PlainCall>
        ensures { result ≡ spec.plain_call number }
    {
        match number {
            1 => Some(PlainCall::Open),
            2 => Some(PlainCall::Close),
            3 => Some(PlainCall::Dup),
            4 => Some(PlainCall::Read),
            5 => Some(PlainCall::Write),
            6 => Some(PlainCall::Map),
            7 => Some(PlainCall::Unmap),
            8 => Some(PlainCall::GetUid),
            9 => Some(PlainCall::SetUid),
            10 => Some(PlainCall::Exit),
            _ => None,
        }
    }
}
