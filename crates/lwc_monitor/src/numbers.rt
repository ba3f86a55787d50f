/// The number of the call that ends a thread.
pub const EXIT: u32 = 10;

/// The number of the call that traps a context.
pub const LW_TRAP: u32 = 21;

/// The number of the refusal of what a trap forbids.
pub const TRAPPED: u64 = 22;

/// The number of the refusal to trap a context that has been in use too widely.
pub const NOT_FRESH: u64 = 23;
