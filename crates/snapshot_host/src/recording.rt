//! What is kept of a request that is finished, without its bytes.
ghost use Rattle.std.specs.Prelude.{◌≡◌, ◌<◌, length};
ghost use Rattle.lwc_base.specs.Channels.{bytes_in};
ghost use Rattle.snapshot_host.specs.Finish.{StillHas};

use crate::finishing::FinishedView;
use lwc_base::{Channels, ThreadStatus};
use std::marker::Model;
use std::snapshot::Snapshot;

/// What is kept of a request that is finished: how its thread ended, and how many bytes its reply had then.
/// Contracts see it as the record with these bytes. They stay in the channels, where a reply only grows.
#[derive(Drop)]
pub struct Recorded {
    request: u16,
    status: ThreadStatus,
    count: u16,
    at_end: Snapshot<Channels>,
}

impl Model for Recorded {
    ghost use Rattle.std.specs.Prelude.{◌≡◌, length};
    ghost use Rattle.lwc_base.specs.Channels.{bytes_in};
    ghost use Rattle.snapshot_host.specs.declared.finishing.Finished.{Finished};

    ghost Value = { Finished };

    ghost view = { λ kept. record {
      request = kept.request;
      status = kept.status;
      bytes = bytes_in kept.at_end.value.replies kept.request;
    } };

    ghost invariant = { λ kept. length (bytes_in kept.at_end.value.replies kept.request) ≡ kept.count };
}

impl Recorded {
    /// What is kept of a request, whose thread has ended with a status: the bytes are those written so far.
    /// It copies none of them.
    pub fn new(io: &Channels, request_number: u16, status: ThreadStatus) -> Recorded
        requires { request_number < length io.now.requests }
        ensures { result
            ≡ record { request = request_number; status = status; bytes = bytes_in io.now.replies request_number } }
    {
        Recorded {
            request: request_number,
            status,
            count: io.reply(request_number).len() as u16,
            at_end: Snapshot::of(io),
        }
    }

    /// How the thread ended.
    pub fn status(&self) -> ThreadStatus
        ensures { result ≡ self.now.status }
    {
        self.status
    }

    /// The record, with the bytes that channels still have of it.
    pub fn view<'a>(&self, io: &'a Channels) -> FinishedView<'a>
        requires { StillHas io.now self.now }
        ensures { result ≡ self.now }
    {
        FinishedView {
            request: self.request,
            status: self.status,
            bytes: &io.reply(self.request)[..usize::from(self.count)],
        }
    }
}
