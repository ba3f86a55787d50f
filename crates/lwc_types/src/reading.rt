ghost use Rattle.std.specs.Prelude.{◌≡◌};
ghost use Rattle.lwc_types.specs.declared.reading.ReadError.TheVariants.{OutOfMemory};

use crate::memory::OutOfMemory as NoMemory;
use std::alloc::{AllocError, AllocFailed};

/// Why bytes were not read: memory ran out, or they break a rule, the first of them at this offset.
#[derive(Clone, Copy, Debug, PartialEq, Eq, Drop)]
pub enum ReadError<R> {
    OutOfMemory,
    Refused { rule: R, at: u64 },
}

impl<R> From<AllocError> for ReadError<R> {
    ghost from_gives = { λ _ e. e ≡ OutOfMemory };

    /// Memory ran out.
    fn from(_error: AllocError) -> ReadError<R> {
        ReadError::OutOfMemory
    }
}

impl<R, T: Drop> From<AllocFailed<T>> for ReadError<R> {
    ghost from_gives = { λ _ e. e ≡ OutOfMemory };

    /// Memory ran out.
    fn from(_error: AllocFailed<T>) -> ReadError<R> {
        ReadError::OutOfMemory
    }
}

impl<R> From<NoMemory> for ReadError<R> {
    ghost from_gives = { λ _ e. e ≡ OutOfMemory };

    /// Memory ran out.
    fn from(_error: NoMemory) -> ReadError<R> {
        ReadError::OutOfMemory
    }
}
