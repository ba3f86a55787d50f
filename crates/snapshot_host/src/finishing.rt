ghost use Rattle.std.specs.Prelude.{◌≡◌, ◌<◌, ◌≤◌, Some, [], length};
ghost use Rattle.lwc_base.specs.Channels.{bytes_in};
ghost use Rattle.lwc_types.specs.declared.limits.TheConstants.{MOST_REPLY_BYTES};

use arrayvec::ArrayVec;
use lwc_base::{Channels, ThreadStatus};
use std::marker::Model;

/// The bytes of a finished reply, at most `MOST_REPLY_BYTES`, seen as their list.
#[derive(Drop)]
pub struct ReplyBytes {
    bytes: ArrayVec<u8, 4096>,
}

impl Model for ReplyBytes {
    ghost use Rattle.std.specs.Prelude.{◌≤◌, ℕ, List, length};
    ghost use Rattle.lwc_types.specs.declared.limits.TheConstants.{MOST_REPLY_BYTES};

    ghost Value = { List ℕ };

    ghost view = { λ reply. reply.bytes.items };

    ghost invariant = { λ reply. length reply.bytes.items ≤ MOST_REPLY_BYTES };
}

impl ReplyBytes {
    /// These bytes, which are copied. It takes no memory.
    pub fn from_slice(bytes: &[u8]) -> ReplyBytes
        requires { length bytes.now ≤ MOST_REPLY_BYTES }
        ensures { result ≡ bytes.now }
    {
        let mut copy = ReplyBytes::empty();
        copy.set(bytes);
        copy
    }

    /// No bytes.
    fn empty() -> ReplyBytes
        ensures { result ≡ [] }
    {
        ReplyBytes {
            bytes: ArrayVec::new(),
        }
    }

    /// Puts these bytes, which are copied, in the place of those that were there. It takes no memory.
    fn set(&mut self, bytes: &[u8])
        requires { length bytes.now ≤ MOST_REPLY_BYTES }
        ensures { self.new ≡ bytes.now }
    {
        self.bytes.clear();
        let _ = self.bytes.try_extend_from_slice(bytes);
    }

    /// The bytes, in order.
    pub fn as_slice(&self) -> &[u8]
        ensures bytes { result.now ≡ self.now }
        ensures few { length self.now ≤ MOST_REPLY_BYTES }
    {
        self.bytes.as_slice()
    }
}

/// What is recorded of a request that is finished: how its thread ended, and the bytes of its reply.
#[derive(Drop)]
pub struct Finished {
    pub request: u16,
    pub status: ThreadStatus,
    pub bytes: ReplyBytes,
}

impl Finished {
    /// The same record. It takes no memory.
    pub fn same(&self) -> Finished
        ensures { result ≡ self.now }
    {
        self.view().to_finished()
    }

    /// The same record, with its bytes lent.
    pub fn view(&self) -> FinishedView<'_>
        ensures { result ≡ self.now }
    {
        FinishedView {
            request: self.request,
            status: self.status,
            bytes: self.bytes.as_slice(),
        }
    }
}

/// What is recorded of a request that is finished, with the bytes of its reply lent. Contracts see it as the
/// record.
#[derive(Drop)]
pub struct FinishedView<'a> {
    pub request: u16,
    pub status: ThreadStatus,
    pub bytes: &'a [u8],
}

impl<'a> Model for FinishedView<'a> {
    ghost use Rattle.std.specs.Prelude.{◌≤◌, length};
    ghost use Rattle.lwc_types.specs.declared.limits.TheConstants.{MOST_REPLY_BYTES};
    ghost use Rattle.snapshot_host.specs.declared.finishing.Finished.{Finished};

    ghost Value = { Finished };

    ghost view = { λ p. record { request = p.request; status = p.status; bytes = p.bytes.now } };

    ghost invariant = { λ p. length p.bytes.now ≤ MOST_REPLY_BYTES };
}

impl<'a> FinishedView<'a> {
    /// The record, with its bytes copied. It takes no memory.
    pub fn to_finished(&self) -> Finished
        ensures { result ≡ self.now }
    {
        Finished {
            request: self.request,
            status: self.status,
            bytes: ReplyBytes::from_slice(self.bytes),
        }
    }

    /// Puts the record into a place, with its bytes copied. It takes no memory, and moves none of a reply.
    pub fn copy_to(&self, place: &mut Option<Finished>)
        ensures { place.new ≡ Some self.now }
    {
        *place = Some(Finished {
            request: self.request,
            status: self.status,
            bytes: ReplyBytes::empty(),
        });
        if let Some(finished) = place {
            finished.bytes.set(self.bytes);
        }
    }
}

/// What is recorded of a request, whose thread has ended with a status: the bytes are those written so far.
/// It takes no memory.
pub fn finish(io: &Channels, request_number: u16, status: ThreadStatus) -> Finished
    requires { request_number < length io.now.requests }
    ensures { result
        ≡ record { request = request_number; status = status; bytes = bytes_in io.now.replies request_number } }
{
    Finished {
        request: request_number,
        status,
        bytes: ReplyBytes::from_slice(io.reply(request_number)),
    }
}
