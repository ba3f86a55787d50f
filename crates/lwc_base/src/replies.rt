ghost use Rattle.std.specs.Prelude.{◌≡◌, ◌+◌, ◌<◌, ◌≤◌, ◌^◌, ◌++◌, [], IfOk, length, replicate, slice_set};
ghost use Rattle.lwc_base.specs.Channels.{bytes_in};
ghost use Rattle.lwc_types.specs.declared.limits.TheConstants.{MOST_REPLY_BYTES};

use arrayvec::ArrayVec;
use late_rows::{Fresh, LateRows};
use lwc_types::{MOST_REPLY_BYTES, OutOfMemory};
use std::alloc::Global;
use std::marker::Model;

/// How many bytes a short reply has at most: a row of such replies is 64 bytes.
const MOST_SHORT_BYTES: usize = 56;

/// The replies of a run, seen as the list of their bytes. Short replies stand side by side, and one that
/// outgrows its row moves to a row of its own length among the long ones. Memory for all is taken at opening,
/// and a long row is first written when a reply moves there.
#[derive(Drop)]
pub(crate) struct Replies {
    short: LateRows<Reply<MOST_SHORT_BYTES>>,
    // Without bytes where the reply is short.
    long: LateRows<Reply<MOST_REPLY_BYTES>>,
}

impl Model for Replies {
    ghost use Rattle.std.specs.Prelude.{◌≡◌, ℕ, List, length};
    ghost use Rattle.pool_base.specs.Paired.{paired};
    ghost use Rattle.lwc_base.specs.Replies.{seen_reply};

    ghost Value = { List (List ℕ) };

    ghost view = { λ replies. paired seen_reply replies.short replies.long };

    ghost invariant = { λ replies. length replies.short ≡ length replies.long };
}

impl Replies {
    /// This number of replies without bytes. The only error is out of memory.
    pub(crate) fn open(alloc: Global, count: u32) -> Result<Replies, OutOfMemory>
        requires { count + 1 < 2 ^ 32 }
        ensures { IfOk result (λ replies. replies ≡ replicate count []) }
    {
        Ok(Replies {
            short: LateRows::open(alloc, count)?,
            long: LateRows::open(alloc, count)?,
        })
    }

    /// The bytes of a reply, in order.
    pub(crate) fn bytes(&self, request: usize) -> &[u8]
        requires { request < length self.now }
        ensures bytes { result.now ≡ bytes_in self.now request }
        ensures few { length (bytes_in self.now request) ≤ MOST_REPLY_BYTES }
    {
        let long = self.long[request].as_slice();
        if long.is_empty() {
            self.short[request].as_slice()
        } else {
            long
        }
    }

    /// Appends bytes to a reply, which has room for them.
    pub(crate) fn append(&mut self, request: usize, piece: &[u8])
        requires there { request < length self.old }
        requires room { length (bytes_in self.old request) + length piece.now ≤ MOST_REPLY_BYTES }
        ensures { self.new ≡ slice_set self.old request (bytes_in self.old request ++ piece.now) }
    {
        let short = self.short[request].as_slice();
        if !self.long[request].as_slice().is_empty() {
            self.long[request].append(piece);
        } else if short.len() + piece.len() <= MOST_SHORT_BYTES {
            self.short[request].append(piece);
        } else {
            let long = &mut self.long[request];
            long.append(short);
            long.append(piece);
        }
    }
}

/// The bytes of a reply, at most this many.
#[derive(Drop)]
struct Reply<const MOST: usize> {
    bytes: ArrayVec<u8, MOST>,
}

impl<const MOST: usize> Model for Reply<MOST> {
    ghost use Rattle.std.specs.Prelude.{ℕ, List};

    ghost Value = { List ℕ };

    ghost view = { λ reply. reply.bytes.items };
}

impl<const MOST: usize> Fresh for Reply<MOST> {
    ghost fresh = { [] };

    /// A reply without bytes.
    fn fresh() -> Reply<MOST> {
        Reply {
            bytes: ArrayVec::new(),
        }
    }
}

impl<const MOST: usize> Reply<MOST> {
    /// The bytes, in order.
    fn as_slice(&self) -> &[u8]
        ensures bytes { result.now ≡ self.now }
        ensures few { length self.now ≤ MOST }
    {
        self.bytes.as_slice()
    }

    /// Appends bytes that there is room for.
    fn append(&mut self, piece: &[u8])
        requires { length self.old + length piece.now ≤ MOST }
        ensures { self.new ≡ self.old ++ piece.now }
    {
        let _ = self.bytes.try_extend_from_slice(piece);
    }
}
