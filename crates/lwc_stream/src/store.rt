//! Memory in which a worker keeps the bytes of its replies.
ghost use Rattle.std.specs.Prelude.{◌≡◌, ◌<◌, ◌^◌, All, IfOk};
ghost use Rattle.lwc_stream.specs.Blocks.{HaveRoom};

use lwc_base::{MOST_REPLY_BYTES, OutOfMemory};
use snapshot_host::{Finished, FinishedView};
use std::alloc::Global;
use std::sync::Wait;
use std::thread;

/// How many blocks a worker has.
pub(crate) const BLOCKS: usize = 5;

/// The largest of them.
pub(crate) const LAST: usize = BLOCKS - 1;

/// Blocks for each of this many workers, with room for the bytes of this many replies. It touches no memory. The only
/// error is out of memory.
pub(crate) fn open_blocks(
    alloc: Global,
    workers: usize,
    replies: usize,
) -> Result<Vec<[Vec<u8>; BLOCKS]>, OutOfMemory>
    requires { replies < 2 ^ 32 }
    ensures room { IfOk result (λ b. All (HaveRoom replies) b.items) }
{
    let mut blocks = Vec::new(alloc);
    'workers: for _ in 0..workers {
        blocks.push(blocks_for(alloc, replies)?)?;
    }
    Ok(blocks)
}

/// The blocks of a worker: a small one, larger ones, and one with room for the bytes of this many replies, however long
/// each is. The only error is out of memory.
fn blocks_for(alloc: Global, replies: usize) -> Result<[Vec<u8>; BLOCKS], OutOfMemory>
    requires { replies < 2 ^ 32 }
    ensures room { IfOk result (HaveRoom replies) }
{
    let whole = replies * MOST_REPLY_BYTES;
    Ok([
        Vec::with_capacity(alloc, whole / 1024)?,
        Vec::with_capacity(alloc, whole / 128)?,
        Vec::with_capacity(alloc, whole / 16)?,
        Vec::with_capacity(alloc, whole / 4)?,
        Vec::with_capacity(alloc, whole)?,
    ])
}

/// What is left of the block that is in use, and the blocks that are not. A block is touched when it comes into use.
#[derive(Drop)]
pub(crate) struct Store<'a> {
    rest: &'a mut [u8],
    blocks: &'a mut [Vec<u8>],
}

impl<'a> Store<'a> {
    /// Memory in these blocks.
    pub(crate) fn new(blocks: &'a mut [Vec<u8>]) -> Store<'a> {
        Store {
            rest: &mut [],
            blocks,
        }
    }

    /// A reply with a copy of its bytes in a block.
    pub(crate) fn keep<R: Wait>(&mut self, rt: &R, reply: &Finished) -> FinishedView<'a>
        ensures { result ≡ reply.now }
    {
        FinishedView {
            request: reply.request,
            status: reply.status,
            bytes: self.copy_of(rt, reply.bytes.as_slice()),
        }
    }

    /// A copy of these bytes. It waits where no block has room for it, and blocks for all replies always have.
    fn copy_of<R: Wait>(&mut self, rt: &R, bytes: &[u8]) -> &'a [u8]
        ensures { result.now ≡ bytes.now }
    {
        for _ in rt.forever() {
            if let Some(place) = self.rest.split_off_mut(..bytes.len()) {
                place.copy_from_slice(bytes);
                return place;
            }
            match self.blocks.split_off_first_mut() {
                Some(block) => self.rest = whole_of(block),
                None => thread::yield_now(),
            }
        }
        unreachable!()
    }
}

/// All of a block's memory, cleared.
fn whole_of(block: &mut Vec<u8>) -> &mut [u8] {
    let _ = block.resize(block.capacity(), 0);
    block.as_mut_slice()
}
