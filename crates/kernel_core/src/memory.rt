ghost use Rattle.std.specs.Prelude.{◌≡◌, ◌<◌, ◌≤◌, IfOk, IsOk, OnErr, OnOk, length, true};
ghost use Rattle.kernel_core.specs.Changes.{Keeps, Makes};
ghost use Rattle.kernel_core.specs.Ready.{CanAct};
ghost use Rattle.kernel_core.specs.Step as spec;
ghost use Rattle.lwc_types.specs.declared.page.TheConstants.{PAGE_BYTES};
ghost use Rattle.world_face.specs.Calls.{IsLive};

use crate::acting::Change;
use crate::thread::Thread;
use guest_isa::Instr;
use lwc_base::{Fault, Name, OutOfMemory, Regs};
use world_face::{StoreFault, World, is_within, load_for};

/// The number of bytes of a word.
const WORD_BYTES: u64 = 8;

/// The address that an instruction names.
#[inline(always)]
pub(crate) fn address_of(regs: &Regs, instruction: &Instr) -> u64
    requires { instruction.now.ra < 16 }
    ensures { result ≡ spec.address regs.now instruction.now }
{
    regs.r[usize::from(instruction.ra)].wrapping_add(instruction.sx())
}

/// The byte at an address.
#[inline(always)]
pub(crate) fn byte_at<W: World>(world: &mut W, context: Name, at: u64) -> Option<u8>
    requires { IsLive (W.seen world.old) context }
    ensures found { result ≡ spec.byte_for (W.seen world.old) context at }
    ensures same { W.seen world.new ≡ W.seen world.old }
{
    let mut out = [0u8; 1];
    if load_for(world, context, at, &mut out) {
        Some(out[0])
    } else {
        None
    }
}

/// The word at an address, lowest byte first.
#[inline(always)]
pub(crate) fn word_at<W: World>(world: &mut W, context: Name, at: u64) -> Option<u64>
    requires { IsLive (W.seen world.old) context }
    ensures found { result ≡ spec.word_for (W.seen world.old) context at }
    ensures same { W.seen world.new ≡ W.seen world.old }
{
    if at % WORD_BYTES != 0 {
        return None;
    }
    let mut out = [0u8; 8];
    if load_for(world, context, at, &mut out) {
        Some(u64::from_le_bytes(out))
    } else {
        None
    }
}

/// Stores the lowest byte of a value.
#[inline(always)]
pub(crate) fn store_byte<W: World>(
    world: &mut W,
    thread: &mut Thread,
    at: u64,
    value: u64,
) -> Result<Change, OutOfMemory>
    requires ready { CanAct (W.seen world.old) thread.old }
    ensures outcome { OnOk result (Makes (λ e x. spec.byte_outcome e x at value)
        (W.seen world.old) thread.old (W.seen world.new) thread.new) }
    ensures kept { IfOk result (λ change.
        Keeps change (W.seen world.old) thread.old (W.seen world.new) thread.new) }
    ensures err { OnErr result (W.seen world.new ≡ W.seen world.old) }
    ensures err_thread { OnErr result (thread.new ≡ thread.old) }
    ensures ample { W.roomy ≡ true → IsOk result }
{
    store_bytes(world, thread, at, &[(value % 256) as u8])
}

/// Stores a word, lowest byte first.
#[inline(always)]
pub(crate) fn store_word<W: World>(
    world: &mut W,
    thread: &mut Thread,
    at: u64,
    value: u64,
) -> Result<Change, OutOfMemory>
    requires ready { CanAct (W.seen world.old) thread.old }
    ensures outcome { OnOk result (Makes (λ e x. spec.word_outcome e x at value)
        (W.seen world.old) thread.old (W.seen world.new) thread.new) }
    ensures kept { IfOk result (λ change.
        Keeps change (W.seen world.old) thread.old (W.seen world.new) thread.new) }
    ensures err { OnErr result (W.seen world.new ≡ W.seen world.old) }
    ensures err_thread { OnErr result (thread.new ≡ thread.old) }
    ensures ample { W.roomy ≡ true → IsOk result }
{
    if at % WORD_BYTES != 0 {
        thread.fail(Fault::BadStore);
        return Ok(Change::Thread);
    }
    store_bytes(world, thread, at, &value.to_le_bytes())
}

/// Stores bytes for the thread's job.
#[inline(always)]
#[tactic(auto, unfolding(crate::specs::Step::store_outcome))]
fn store_bytes<W: World>(
    world: &mut W,
    thread: &mut Thread,
    at: u64,
    bytes: &[u8],
) -> Result<Change, OutOfMemory>
    requires ready { CanAct (W.seen world.old) thread.old }
    requires short { length bytes.now ≤ PAGE_BYTES }
    ensures outcome { OnOk result (Makes
        (λ e x. spec.store_outcome e x (record { at = at; bytes = bytes.now }))
        (W.seen world.old) thread.old (W.seen world.new) thread.new) }
    ensures kept { IfOk result (λ change.
        Keeps change (W.seen world.old) thread.old (W.seen world.new) thread.new) }
    ensures err { OnErr result (W.seen world.new ≡ W.seen world.old) }
    ensures err_thread { OnErr result (thread.new ≡ thread.old) }
    ensures ample { W.roomy ≡ true → IsOk result }
{
    if !is_within(world.pages(), at, bytes.len()) {
        thread.fail(Fault::BadStore);
        return Ok(Change::Thread);
    }
    match world.store(thread.context, at as u32, bytes, thread.job) {
        Ok(()) => {
            thread.advance();
            Ok(Change::World)
        }
        Err(StoreFault::BadAddress) => {
            thread.fail(Fault::BadStore);
            Ok(Change::Thread)
        }
        Err(StoreFault::ReadOnly) => {
            thread.fail(Fault::ReadOnly);
            Ok(Change::Thread)
        }
        Err(StoreFault::NoFrame) => {
            thread.fail(Fault::NoFrame);
            Ok(Change::Thread)
        }
        Err(StoreFault::OutOfMemory) => Err(OutOfMemory),
    }
}
