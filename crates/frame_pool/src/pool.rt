ghost use Rattle.std.specs.Prelude.{◌≡◌, ◌≢◌, ℕ, ◌+◌, ◌-◌, ◌<◌, ◌^◌, ◌↔◌, List, IfOk, IfSome, IfNone, IsNone, length};
ghost use Rattle.std.specs.Prelude.{◌≤◌, [], max, replicate, slice_index_or, slice_set, vec_capacity};
ghost use Rattle.lwc_types.specs.Pages.{zero_page};
ghost use Rattle.lwc_types.specs.declared.page.TheConstants.{PAGE_BYTES};
ghost use Rattle.pool_base.specs.Padded.{padded};

use lwc_types::{OutOfMemory, PAGE_BYTES, Tag};
use pool_base::{HoldCounts, put_next};
use std::alloc::Global;
use std::marker::Model;

/// Names a frame of a pool by its place.
#[derive(Clone, Copy, Debug, PartialEq, Eq)]
pub struct FrameNo {
    pub n: u32,
}

/// Frames in one region, seen as the list of them: of each its count, its stamp and its 4096 bytes.
/// No call looks for a free frame, and a frame's memory is first written when the frame is taken.
#[derive(Drop)]
pub struct Pool {
    counts: HoldCounts,
    stamps: Vec<Tag>,
    bytes: Vec<[u8; PAGE_BYTES]>,
}

impl Model for Pool {
    ghost use Rattle.std.specs.Prelude.{List};
    ghost use Rattle.frame_pool.specs.Frame.{Frame};

    ghost Value = { List Frame };

    ghost use Rattle.frame_pool.specs.View.{seen_frames, IsWhole};

    ghost view = { λ pool. seen_frames pool.counts pool.stamps.items pool.bytes.items };

    ghost use Rattle.std.specs.Prelude.{◌≤◌, length, vec_capacity};

    ghost invariant = { λ pool. record {
      whole : IsWhole pool.counts pool.stamps.items pool.bytes.items;
      room : length pool.counts.counts ≤ vec_capacity pool.stamps;
      bytes_room : length pool.counts.counts ≤ vec_capacity pool.bytes;
    } };
}

impl Pool {
    ghost use Rattle.std.specs.Borrow.{sem};
    ghost use Rattle.frame_pool.specs.Frame.{frame_count, frame_stamp, frame_bytes, recount_frame, refill_frame};
    ghost use Rattle.frame_pool.specs.Frame.{free_frames, used_frames, zero_frame};
    ghost use Rattle.frame_pool.specs.PoolLending.{LendsBytes};

    /// A pool of this many frames, all free. The only error is out of memory.
    pub fn open(alloc: Global, frames: u32) -> Result<Pool, OutOfMemory>
        ensures { IfOk result (λ pool. pool ≡ replicate frames (zero_frame 0 (record { job = 0; k = 0 }))) }
    {
        let counts = HoldCounts::open(alloc, frames)?;
        let stamps = Vec::with_capacity(alloc, frames as usize)?;
        let bytes = Vec::with_capacity(alloc, frames as usize)?;
        Ok(Pool {
            counts,
            stamps,
            bytes,
        })
    }

    /// Takes a free frame: it is held once, has the stamp, and all its bytes are 0. None exactly where no
    /// frame is free.
    pub fn take(&mut self, stamp: Tag) -> Option<FrameNo>
        ensures full { IsNone result ↔ (free_frames self.old ≡ 0) }
        ensures full_same { IfNone result (self.new ≡ self.old) }
        ensures inside { IfSome result (λ frame. frame.n < length self.old) }
        ensures was_free { IfSome result (λ frame. frame_count self.old frame.n ≡ 0) }
        ensures taken { IfSome result (λ frame. self.new ≡ slice_set self.old frame.n (zero_frame 1 stamp)) }
    {
        let n = self.counts.take()?;
        put_next(&mut self.stamps, n as usize, stamp);
        put_next(&mut self.bytes, n as usize, [0; PAGE_BYTES]);
        Some(FrameNo { n })
    }

    /// Takes a free frame as `take` does, with the bytes of a held frame, which are copied, in place of zeros.
    pub fn take_copy(&mut self, stamp: Tag, from: FrameNo) -> Option<FrameNo>
        requires { 0 < frame_count self.old from.n }
        ensures full { IsNone result ↔ (free_frames self.old ≡ 0) }
        ensures full_same { IfNone result (self.new ≡ self.old) }
        ensures inside { IfSome result (λ frame. frame.n < length self.old) }
        ensures was_free { IfSome result (λ frame. frame_count self.old frame.n ≡ 0) }
        ensures taken { IfSome result (λ frame. self.new ≡ slice_set self.old frame.n
            (record { count = 1; stamp = stamp; bytes = frame_bytes self.old from.n })) }
    {
        let n = self.counts.take()?;
        let place = n as usize;
        put_next(&mut self.stamps, place, stamp);
        put_copy(&mut self.bytes, from.n as usize, place);
        Some(FrameNo { n })
    }

    /// Holds a held frame once more.
    pub fn hold(&mut self, frame: FrameNo)
        requires held { 0 < frame_count self.old frame.n }
        requires fits { frame_count self.old frame.n + 1 < 2 ^ 32 }
        ensures { self.new ≡ recount_frame self.old frame.n (frame_count self.old frame.n + 1) }
    {
        self.counts.hold(frame.n);
    }

    /// Holds a held frame once less. At 0 it is free.
    pub fn drop_hold(&mut self, frame: FrameNo)
        requires { 0 < frame_count self.old frame.n }
        ensures { self.new ≡ recount_frame self.old frame.n (frame_count self.old frame.n - 1) }
    {
        self.counts.drop_hold(frame.n);
    }

    /// The 4096 bytes of a held frame.
    pub fn bytes(&self, frame: FrameNo) -> &[u8]
        requires { 0 < frame_count self.now frame.n }
        ensures value { result.now ≡ frame_bytes self.now frame.n }
        ensures whole { length result.now ≡ PAGE_BYTES }
    {
        &self.bytes[frame.n as usize]
    }

    /// The 4096 bytes of a frame that is held once, to be written.
    pub fn bytes_mut(&mut self, frame: FrameNo) -> &mut [u8; PAGE_BYTES]
        requires { frame_count self.old frame.n ≡ 1 }
        ensures* writes_back { sem 𝓛 (LendsBytes self.entry frame.n result) }
        ensures value { result.now ≡ frame_bytes self.old frame.n }
    {
        &mut self.bytes[frame.n as usize]
    }

    /// Copies the bytes of a held frame into one that is held once.
    pub fn copy_to(&mut self, from: FrameNo, to: FrameNo)
        requires held { 0 < frame_count self.old from.n }
        requires once { frame_count self.old to.n ≡ 1 }
        requires different { from.n ≢ to.n }
        ensures { self.new ≡ refill_frame self.old to.n (frame_bytes self.old from.n) }
    {
        let bytes = self.bytes[from.n as usize];
        self.bytes[to.n as usize] = bytes;
    }

    /// How often a frame is held.
    pub fn count(&self, frame: FrameNo) -> u32
        requires { frame.n < length self.now }
        ensures { result ≡ frame_count self.now frame.n }
    {
        self.counts.count(frame.n)
    }

    /// The stamp that a frame was last taken with.
    pub fn stamp(&self, frame: FrameNo) -> Tag
        requires { frame.n < length self.now }
        ensures { result ≡ frame_stamp self.now frame.n }
    {
        let n = frame.n as usize;
        if n < self.stamps.len() {
            self.stamps[n]
        } else {
            Tag { job: 0, k: 0 }
        }
    }

    /// How many frames there are, held or free.
    pub fn len(&self) -> u32
        ensures { result ≡ length self.now }
    {
        self.counts.len()
    }

    /// How many frames are held.
    pub fn used(&self) -> u32
        ensures used { result ≡ used_frames self.now }
        ensures all { result + free_frames self.now ≡ length self.now }
    {
        self.counts.used()
    }
}

/// Puts a copy of the bytes at one place at another place, or after the last one, where memory is reserved.
fn put_copy(frames: &mut Vec<[u8; PAGE_BYTES]>, from: usize, place: usize)
    requires from { from < length frames.old.items }
    requires next { place ≤ length frames.old.items }
    requires room { place < vec_capacity frames.old }
    ensures padded { (size : ℕ) → place < size → padded size zero_page frames.new.items
        ≡ slice_set (padded size zero_page frames.old.items) place (slice_index_or frames.old.items from []) }
    ensures len { length frames.new.items ≡ max (length frames.old.items) (place + 1) }
    ensures capacity { vec_capacity frames.old ≤ vec_capacity frames.new }
{
    let bytes = frames[from];
    if place < frames.len() {
        frames[place] = bytes;
    } else {
        frames.push_reserved(bytes);
    }
}
