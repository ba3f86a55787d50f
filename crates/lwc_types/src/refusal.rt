ghost use Rattle.std.specs.Prelude.{◌≡◌};
ghost use Rattle.lwc_types.specs.Faults.{refusal_number};

/// Why a call of a guest was refused.
#[derive(Clone, Copy, PartialEq, Eq)]
pub enum Refusal {
    /// The number names no call.
    BadCall,
    /// The slot's number is above 63, or the slot is empty.
    BadFd,
    /// The slot's value is of a kind that the call does not take.
    WrongKind,
    /// A byte of a range is past the last page or in an absent page.
    BadAddress,
    /// The range is empty or passes its limit.
    BadRange,
    /// An item's kind or mode is not one that the call takes.
    BadMode,
    /// Two items of one kind have a key in common.
    Overlap,
    /// There are more than 32 items.
    TooManyItems,
    /// A named key is not in the capability.
    NotCovered,
    /// 32 contexts of the job live.
    TooManyContexts,
    /// No slot of the acting table is empty.
    NoSlot,
    /// No slot of the target's table is empty.
    NoSlotThere,
    /// Too few frames are free.
    NoFrame,
    /// The uid may not open the file, or may not become the one that was asked for.
    NotPermitted,
    /// There is no file of that number.
    NoFile,
    /// 64 groups of the job live, and one more is needed.
    TooManyGroups,
    /// A context would have more than 64 ranges.
    TooManyRanges,
    /// The reply or the console would pass its limit.
    ReplyFull,
    /// The length is above 4096.
    TooLong,
    /// A page that bytes would be stored to has the right Read.
    ReadOnly,
}

impl Refusal {
    /// The number that a refused call answers with, 2 to 21: the call sets r0 to 2^64 less it
    /// (`refusal_number`).
    pub fn number(self) -> u64
        ensures { result ≡ refusal_number self }
    {
        match self {
            Refusal::BadCall => 2,
            Refusal::BadFd => 3,
            Refusal::WrongKind => 4,
            Refusal::BadAddress => 5,
            Refusal::BadRange => 6,
            Refusal::BadMode => 7,
            Refusal::Overlap => 8,
            Refusal::TooManyItems => 9,
            Refusal::NotCovered => 10,
            Refusal::TooManyContexts => 11,
            Refusal::NoSlot => 12,
            Refusal::NoSlotThere => 13,
            Refusal::NoFrame => 14,
            Refusal::NotPermitted => 15,
            Refusal::NoFile => 16,
            Refusal::TooManyGroups => 17,
            Refusal::TooManyRanges => 18,
            Refusal::ReplyFull => 19,
            Refusal::TooLong => 20,
            Refusal::ReadOnly => 21,
        }
    }
}
