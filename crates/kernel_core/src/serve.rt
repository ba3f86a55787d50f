//! What a kernel keeps of a serve, and how its workers wait, begin and finish requests.
ghost use Rattle.std.specs.Prelude.{◌≡◌, ◌<◌, ◌≤◌, ◌+◌, ◌-◌, ◌*◌, ℕ, None, IfOk, IfSome, Some, length};
ghost use Rattle.std.specs.Prelude.{replicate, slice_index_or, slice_set};
ghost use Rattle.std.specs.Option.{option_map};
ghost use Rattle.kernel_core.specs.Machine as machine;
ghost use Rattle.kernel_core.specs.Step as spec;
ghost use Rattle.lwc_base.specs.Channels.{bytes_in};
ghost use Rattle.lwc_types.specs.declared.limits.TheConstants.{MOST_REQUESTS, MOST_THREADS};
ghost use Rattle.snapshot_host.specs.Finish.{StillHas};

use lwc_base::{Channels, Name, OutOfMemory, ThreadStatus};
use snapshot_host::{FinishedView, Recorded};
use std::alloc::Global;
use std::marker::Model;

/// A serve: the number of workers, the steps that each request may take, the number of the next request, and
/// what is recorded of each request that is finished.
#[derive(Drop)]
pub struct Serve {
    pub(crate) workers: u32,
    pub(crate) budget: u32,
    pub(crate) next: u16,
    replies: Vec<Option<Recorded>>,
}

impl Model for Serve {
    ghost use Rattle.kernel_core.specs.Machine as machine;

    ghost Value = { machine.Serve };

    ghost view = { λ s. record {
      workers = s.workers;
      budget = s.budget;
      next = s.next;
      replies = s.replies.items;
    } };

    ghost use Rattle.std.specs.Prelude.{◌≤◌};
    ghost use Rattle.lwc_types.specs.declared.limits.TheConstants.{MOST_THREADS};

    ghost invariant = { λ s. s.workers ≤ MOST_THREADS };
}

impl Serve {
    /// A serve of which no request is begun. The only error is out of memory.
    pub(crate) fn open(
        alloc: Global,
        workers: u32,
        budget: u32,
        requests: usize,
    ) -> Result<Serve, OutOfMemory>
        requires { workers ≤ MOST_THREADS }
        ensures { IfOk result (λ s. s ≡ record {
          workers = workers;
          budget = budget;
          next = 0;
          replies = replicate requests None;
        }) }
    {
        let mut replies = Vec::with_capacity(alloc, requests)?;
        for _ in 0..requests {
            replies.push(None)?;
        }
        Ok(Serve {
            workers,
            budget,
            next: 0,
            replies,
        })
    }

    /// Records the reply of a request, whose thread has ended with a status. It takes no memory, and copies
    /// no byte of the reply.
    pub(crate) fn record_reply(&mut self, io: &Channels, request_number: u16, status: ThreadStatus)
        requires request { request_number < length io.now.requests }
        requires place { request_number < length self.old.replies }
        ensures { self.new ≡ spec.with_reply self.old
            (record { request = request_number; status = status; bytes = bytes_in io.now.replies request_number }) }
    {
        self.replies[usize::from(request_number)] = Some(Recorded::new(io, request_number, status));
    }

    /// What is recorded of a request; `None` if it is not finished.
    fn reply(&self, request: u16) -> Option<&Recorded>
        ensures { option_map (λ x. x.now) result ≡ slice_index_or self.now.replies request None }
    {
        self.replies.get(usize::from(request))?.as_ref()
    }
}

/// The context in which the worker of a number waits.
pub(crate) fn home_of(thread: u32) -> Name
    requires { thread < MOST_THREADS }
    ensures { result ≡ machine.home_of thread }
{
    Name {
        job: 0,
        k: thread + 1,
    }
}

/// The number of workers of a serve; a run has none.
pub(crate) fn worker_count(serve: &Option<Serve>) -> u32
    ensures homes { machine.homes_of result ≡ machine.homes serve.now }
    ensures few { result ≤ MOST_THREADS }
{
    match serve {
        Some(serve) => serve.workers,
        None => 0,
    }
}

/// How a request ended; `None` if it is not finished, or if nothing is served.
pub(crate) fn status_of(serve: &Option<Serve>, request: u16) -> Option<ThreadStatus>
    ensures { result ≡ option_map (λ x. x.status) (machine.in_serve serve.now request) }
{
    Some(serve.as_ref()?.reply(request)?.status())
}

/// What is recorded of a request, with the bytes that channels still have of it; `None` if it is not finished,
/// or if nothing is served.
pub(crate) fn recorded<'a>(
    serve: &Option<Serve>,
    io: &'a Channels,
    request: u16,
) -> Option<FinishedView<'a>>
    requires { IfSome (machine.in_serve serve.now request) (StillHas io.now) }
    ensures { result ≡ machine.in_serve serve.now request }
{
    Some(serve.as_ref()?.reply(request)?.view(io))
}
