/// The number of the call that gives fuel to a trapped context.
pub const LW_FUEL: u32 = 24;

/// The most fuel that a context may have.
pub const MOST_FUEL: u32 = 100_000;

/// Why a step was given back, where it was no fault: there was no fuel for it.
pub const NO_FUEL: u64 = 0;

/// Why a step was given back, where it was no fault: it came to HALT.
pub const HALTED: u64 = 7;

/// Why a step was given back, where it was no fault: it came to an exit.
pub const EXITED: u64 = 8;
