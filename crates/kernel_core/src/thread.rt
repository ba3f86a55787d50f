ghost use Rattle.std.specs.Prelude.{◌≡◌, ◌<◌, ◌≤◌, ◌+◌, ◌^◌};
ghost use Rattle.kernel_core.specs.Kernel.{turn_of};
ghost use Rattle.kernel_core.specs.Machine as machine;
ghost use Rattle.kernel_core.specs.Step as spec;

use lwc_base::{Fault, Name, Refusal, Regs, ThreadStatus};
use snapshot_host::{Finished, FinishedView};

/// A thread: its status, the context that it is in, its registers, the job that it acts for, and the number
/// of steps that it may still make.
#[derive(Clone, Copy, PartialEq, Eq)]
pub struct Thread {
    pub status: ThreadStatus,
    pub context: Name,
    pub regs: Regs,
    pub job: u32,
    pub budget: u32,
}

/// What a step left of its thread: the registers and the status, and the request that it finished, if it did.
#[derive(Drop)]
pub struct Turn {
    pub regs: Regs,
    pub status: ThreadStatus,
    pub finished: Option<Finished>,
}

/// What can be seen of a thread: its status, its context and its registers.
#[derive(Clone, Copy, PartialEq, Eq)]
pub struct ThreadView {
    pub status: ThreadStatus,
    pub context: Name,
    pub regs: Regs,
}

/// Whether a thread of this status has ended.
pub(crate) fn has_ended(status: ThreadStatus) -> bool
    ensures { result ≡ machine.has_ended status }
{
    match status {
        ThreadStatus::Idle | ThreadStatus::Running => false,
        ThreadStatus::Done { .. } | ThreadStatus::Faulted { .. } => true,
    }
}

impl Turn {
    /// The same turn. It takes no memory.
    pub fn same(&self) -> Turn
        ensures { result ≡ self.now }
    {
        Turn {
            regs: self.regs,
            status: self.status,
            finished: self.finished.as_ref().map(|finished| finished.same()),
        }
    }

    /// Makes this the turn of a thread whose step finished a request, or none. It takes no memory.
    pub(crate) fn note(&mut self, thread: &Thread, finished: Option<FinishedView<'_>>)
        ensures { self.new ≡ turn_of thread.now finished.entry }
    {
        match finished {
            Some(finished) => finished.copy_to(&mut self.finished),
            // The 4096 bytes of a reply are not written where there are none.
            None if self.finished.is_none() => {}
            None => self.finished = None,
        }
        // One by one: the copy of all registers at once is a call of the C library.
        self.regs.r = thread.regs.r;
        self.regs.pc = thread.regs.pc;
        self.status = thread.status;
    }

    /// Whether the thread has ended.
    pub fn has_ended(&self) -> bool
        ensures { result ≡ machine.has_ended self.now.status }
    {
        has_ended(self.status)
    }
}

impl Thread {
    /// A worker that waits in its home, with these registers.
    pub(crate) fn waiting(home: Name, regs: Regs) -> Thread
        ensures { result ≡ spec.waiting home regs }
    {
        Thread {
            status: ThreadStatus::Idle,
            context: home,
            regs,
            job: 0,
            budget: 0,
        }
    }

    /// The registers and the status, and the request that a step of it has finished.
    pub fn turn(&self, finished: Option<FinishedView<'_>>) -> Turn
        ensures { result ≡ turn_of self.now finished.entry }
    {
        Turn {
            regs: self.regs,
            status: self.status,
            finished: finished.map(|finished| finished.to_finished()),
        }
    }

    /// What can be seen of the thread.
    pub fn view(&self) -> ThreadView
        ensures { result
            ≡ record { status = self.now.status; context = self.now.context; regs = self.now.regs } }
    {
        ThreadView {
            status: self.status,
            context: self.context,
            regs: self.regs,
        }
    }

    /// The number of steps that the thread may still make, where a worker makes this number more after
    /// those of its request.
    pub(crate) fn steps_left(&self, more: u32) -> u32
        requires { self.now.budget + more < 2 ^ 32 }
        ensures { result ≡ machine.steps_left more self.now.budget self.now.status }
    {
        match self.status {
            ThreadStatus::Running => self.budget + more,
            ThreadStatus::Idle => 1,
            ThreadStatus::Done { .. } | ThreadStatus::Faulted { .. } => 0,
        }
    }

    /// Ends the thread with a code.
    pub(crate) fn finish(&mut self, code: u64)
        ensures { self.new ≡ spec.with_status self.old (ThreadStatus.Done code) }
    {
        self.status = ThreadStatus::Done { code };
    }

    /// Ends the thread by a fault.
    pub(crate) fn fail(&mut self, fault: Fault)
        ensures { self.new ≡ spec.faulted self.old fault }
    {
        self.status = ThreadStatus::Faulted { fault };
    }

    /// Goes to the next instruction.
    pub(crate) fn advance(&mut self)
        ensures { self.new ≡ spec.with_regs self.old (spec.next_instruction self.old.regs) }
    {
        self.regs.pc = self.regs.pc.wrapping_add(1);
    }

    /// Goes to the next instruction, with a value in a register.
    pub fn answer(&mut self, register: u8, value: u64)
        requires { register < 16 }
        ensures { self.new ≡ spec.with_regs self.old (spec.with_result self.old.regs register value) }
    {
        self.regs.r[usize::from(register)] = value;
        self.regs.pc = self.regs.pc.wrapping_add(1);
    }

    /// Goes to the next instruction, with the reason of a refusal in r0.
    pub(crate) fn refuse(&mut self, refusal: Refusal)
        ensures { self.new ≡ spec.refused self.old refusal }
    {
        self.answer(0, 0u64.wrapping_sub(refusal.number()));
    }

    /// Ends a load: the register gets what was found, or the thread fails.
    pub(crate) fn load(&mut self, register: u8, found: Option<u64>)
        requires { register < 16 }
        ensures { self.new ≡ spec.loaded self.old register found }
    {
        match found {
            Some(value) => self.answer(register, value),
            None => self.fail(Fault::BadLoad),
        }
    }

    /// Sets the number of steps left. With none left, a running thread is ended by a fault.
    pub fn set_steps(&mut self, left: u32)
        ensures { self.new ≡ spec.with_steps left self.old }
    {
        self.budget = left;
        if left == 0 && self.status == ThreadStatus::Running {
            self.fail(Fault::Budget);
        }
    }
}
