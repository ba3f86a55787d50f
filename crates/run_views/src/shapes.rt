//! What a caller sees of a run, in numbers.

ghost use Rattle.std.specs.Prelude.{◌≡◌};
ghost use Rattle.lwc_base.specs.Lending.{descriptor_of};
ghost use Rattle.run_views.specs.Runs.{slot_of, state_of, status_code, status_number};

use kernel_core::ThreadView;
use lwc_base::{Lent, ThreadStatus};

/// The size of a run: its threads, the steps that were kept, how many more its threads may make, the live contexts,
/// and the frames in use, now and at most so far.
#[repr(C)]
#[derive(Clone, Copy)]
pub struct Totals {
    pub threads: u32,
    pub steps: u32,
    pub work: u32,
    pub contexts: u32,
    pub frames: u32,
    pub peak: u32,
}

/// A thread: its registers, the name of the context that it is in, and its status: 0 for idle, 1 for running, 2 for
/// done with `code`, 3 for faulted by the fault of the number `code`.
#[repr(C)]
#[derive(Clone, Copy)]
pub struct ThreadState {
    pub code: u64,
    pub pc: u64,
    pub registers: [u64; 16],
    pub status: u32,
    pub job: u32,
    pub context: u32,
}

/// What a slot has: 0 for nothing, 1 for the console, 2 for the file `first` and 3 for the request `first`, read up to
/// `second`, 4 for the reply to the request `first`, 5 for the context `first`:`second`.
#[repr(C)]
#[derive(Clone, Copy)]
pub struct SlotState {
    pub kind: u32,
    pub first: u32,
    pub second: u32,
}

impl ThreadState {
    /// The thread that is seen so.
    pub fn of(view: &ThreadView) -> ThreadState
        ensures { result ≡ state_of view.now }
    {
        ThreadState {
            code: status_code(view.status),
            pc: view.regs.pc,
            registers: view.regs.r,
            status: status_number(view.status),
            job: view.context.job,
            context: view.context.k,
        }
    }
}

impl SlotState {
    /// The slot with this in it.
    pub fn of(value: Lent<'_>) -> SlotState
        ensures { result ≡ slot_of (descriptor_of value.entry) }
    {
        let (kind, first, second) = match value {
            Lent::Empty => (0, 0, 0),
            Lent::Console => (1, 0, 0),
            Lent::File { file, at } => (2, u32::from(file), at),
            Lent::Request { r, at } => (3, u32::from(r), at),
            Lent::Reply { r } => (4, u32::from(r), 0),
            Lent::Ctx { name, .. } => (5, name.job, name.k),
        };
        SlotState {
            kind,
            first,
            second,
        }
    }
}

/// The number of a status.
fn status_number(status: ThreadStatus) -> u32
    ensures { result ≡ status_number status }
{
    match status {
        ThreadStatus::Idle => 0,
        ThreadStatus::Running => 1,
        ThreadStatus::Done { .. } => 2,
        ThreadStatus::Faulted { .. } => 3,
    }
}

/// What a thread ended with, or the number of its fault; else 0.
fn status_code(status: ThreadStatus) -> u64
    ensures { result ≡ status_code status }
{
    match status {
        ThreadStatus::Idle | ThreadStatus::Running => 0,
        ThreadStatus::Done { code } => code,
        ThreadStatus::Faulted { fault } => fault.number(),
    }
}
