ghost use Rattle.std.specs.Prelude.{◌≡◌, ◌<◌, ◌≤◌, slice_index_or, false};
ghost use Rattle.lwc_guard.specs.Guards as spec;
ghost use Rattle.lwc_types.specs.declared.limits.TheConstants.{MOST_THREADS};

/// What a guarded context has beside its monitor: the steps that may still be made in it, and which threads it holds,
/// by their numbers.
#[derive(Clone, Copy, PartialEq, Eq)]
pub struct Guard {
    pub fuel: u32,
    pub held: [bool; 16],
}

impl Guard {
    /// A guard without fuel that holds no thread.
    pub(crate) fn new() -> Guard
        ensures { result ≡ spec.new_guard }
    {
        Guard {
            fuel: 0,
            held: [false; 16],
        }
    }

    /// Whether the thread of a number is held.
    pub(crate) fn holds(&self, thread: u32) -> bool
        requires { thread < MOST_THREADS }
        ensures { result ≡ slice_index_or self.now.held thread false }
    {
        self.held[thread as usize]
    }

    /// Holds the thread of a number, or does so no more.
    pub(crate) fn hold(&mut self, thread: u32, held: bool)
        requires { thread < MOST_THREADS }
        ensures { self.new ≡ spec.holding thread held self.old }
    {
        self.held[thread as usize] = held;
    }
}
