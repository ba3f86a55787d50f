ghost use Rattle.std.specs.Prelude.{◌≡◌};
ghost use Rattle.lwc_types.specs.Faults.{fault_number};

/// What ended a thread.
#[derive(Clone, Copy, Debug, PartialEq, Eq)]
pub enum Fault {
    /// The next instruction is past the text.
    BadPc,
    /// A byte that was to be loaded is past the last page or in an absent page, or a word's address is no
    /// multiple of 8.
    BadLoad,
    /// The same for a byte that was to be stored.
    BadStore,
    /// A store found too few frames.
    NoFrame,
    /// The steps that the thread was given have been made.
    Budget,
    /// A byte that was to be stored is in a page that has the right Read.
    ReadOnly,
}

impl Fault {
    /// The number that a report prints, 1 to 6 (`fault_number`).
    pub fn number(self) -> u64
        ensures { result ≡ fault_number self }
    {
        match self {
            Fault::BadPc => 1,
            Fault::BadLoad => 2,
            Fault::BadStore => 3,
            Fault::NoFrame => 4,
            Fault::Budget => 5,
            Fault::ReadOnly => 6,
        }
    }
}

/// The status of a thread.
#[derive(Clone, Copy, Debug, PartialEq, Eq)]
pub enum ThreadStatus {
    Idle,
    Running,
    Done { code: u64 },
    Faulted { fault: Fault },
}
