ghost use Rattle.std.specs.Prelude.{◌≡◌, ◌≢◌, ◌≤◌, ◌↔◌, ◌+◌, ◌<◌, ◌^◌, if◌then◌else◌, true, length, is_some};
ghost use Rattle.std.specs.Prelude.{not, unwrap_or, [], IfOk, IfSome, IsOk, OnErr, OnOk};
ghost use Rattle.lwc_base.specs.Channels.{Channels, HasItsFiles, IsInRange};
ghost use Rattle.lwc_base.specs.Lending.{descriptor_of};
ghost use Rattle.lwc_base.specs.Memory.{bytes_for};
ghost use Rattle.lwc_base.specs.Store as stores;
ghost use Rattle.lwc_base.specs.World.{is_live};
ghost use Rattle.lwc_types.specs.declared.name.Name as names;
ghost use Rattle.lwc_types.specs.declared.limits.TheConstants.{MOST_BYTES_OF_CALL};
ghost use Rattle.lwc_types.specs.declared.page.TheConstants.{PAGE_BYTES};
ghost use Rattle.lwc_syscall.specs.Plain as spec;
ghost use Rattle.world_face.specs.Calls.{IsLive, MayName};

use crate::answer::CallAnswer;
use crate::calls::CallContexts;
use crate::slots::filled_slot;
use lwc_base::{
    Channels, Lent, MOST_BYTES_OF_CALL, MOST_CONSOLE_BYTES, MOST_REPLY_BYTES, Name, OutOfMemory,
    Refusal, StoreFault,
};
use world_face::{World, bytes_for, is_within};

/// How many bytes a write has at most that reads them into a short buffer, since a buffer is cleared first.
const SHORT_WRITE_BYTES: usize = 64;

/// Reads through the descriptor in a slot: at most `count` bytes go to the address `at`, for a job. The
/// only error is out of memory, and then nothing has changed.
#[tactic(auto, unfolding(crate::specs::Plain::reading))]
pub fn read<W: World>(
    world: &mut W,
    io: &Channels,
    targets: &CallContexts,
    job: u32,
    number: u64,
    at: u64,
    count: u64,
) -> Result<CallAnswer, OutOfMemory>
    requires memory { IsLive (W.seen world.old) targets.now.memory }
    requires slots { IsLive (W.seen world.old) targets.now.slots }
    requires may { MayName (W.seen world.old) job }
    requires files { HasItsFiles io.now (W.seen world.old) }
    ensures done { IfOk result
        (λ answer. spec.reading (W.seen world.old) io.now targets.now job number at count
        ≡ record { answer = answer; world = W.seen world.new; io = io.now }) }
    ensures err { OnErr result (W.seen world.new ≡ W.seen world.old) }
    ensures ample { W.roomy ≡ true → IsOk result }
{
    let Some((slot, value)) = filled_slot(world, targets.slots, number) else {
        return Ok(CallAnswer::Refused(Refusal::BadFd));
    };
    let Some(left) = left(io, value) else {
        return Ok(CallAnswer::Refused(Refusal::WrongKind));
    };
    if count > MOST_BYTES_OF_CALL as u64 {
        return Ok(CallAnswer::Refused(Refusal::TooLong));
    }
    let bytes = &left[..left.len().min(count as usize)];
    let value = read_on(value, bytes.len());
    match store_at(world, targets.memory, at, bytes, job) {
        Ok(()) => {}
        Err(StoreFault::BadAddress) => return Ok(CallAnswer::Refused(Refusal::BadAddress)),
        Err(StoreFault::ReadOnly) => return Ok(CallAnswer::Refused(Refusal::ReadOnly)),
        Err(StoreFault::NoFrame) => return Ok(CallAnswer::Refused(Refusal::NoFrame)),
        Err(StoreFault::OutOfMemory) => return Err(OutOfMemory),
    }
    world.set_slot(targets.slots, slot, value);
    Ok(CallAnswer::Value(bytes.len() as u64))
}

/// The bytes that are left to read through a descriptor; `None` if it cannot be read.
fn left<'a>(io: &'a Channels, value: Lent<'_>) -> Option<&'a [u8]>
    requires { IsInRange io.now (descriptor_of value) }
    ensures some { is_some result ≡ is_some (spec.left io.now (descriptor_of value.entry)) }
    ensures bytes { IfSome result (λ bytes. spec.left io.now (descriptor_of value.entry) ≡ Some bytes.now) }
    ensures offset { IfSome result (λ bytes.
        spec.offset_of (descriptor_of value.entry) + length bytes.now < 2 ^ 32) }
{
    match value {
        Lent::Console => Some(&[]),
        Lent::File { file, at } => {
            let bytes = io.files()[file as usize].bytes.as_slice();
            Some(&bytes[at as usize..])
        }
        Lent::Request { r, at } => {
            let bytes = io.requests().get(r as usize).as_slice();
            Some(&bytes[at as usize..])
        }
        _ => None,
    }
}

/// A descriptor that can be read, once more bytes have been read through it.
fn read_on(value: Lent<'_>, count: usize) -> Lent<'static>
    requires { spec.offset_of (descriptor_of value) + count < 2 ^ 32 }
    ensures { (io : Channels) → is_some (spec.left io (descriptor_of value.entry)) ≡ true →
        descriptor_of result ≡ spec.read_on count (descriptor_of value.entry) }
{
    match value {
        Lent::File { file, at } => Lent::File {
            file,
            at: at + count as u32,
        },
        Lent::Request { r, at } => Lent::Request {
            r,
            at: at + count as u32,
        },
        _ => Lent::Console,
    }
}

/// Stores bytes at a guest's address, for a job. No bytes need no address.
///
/// # Errors
///
/// `BadAddress` if one of them is past the last page or in an absent page; else `ReadOnly` if one is in a
/// page that has the right Read; else `NoFrame` if too few frames are free; or `OutOfMemory`.
#[tactic(auto, unfolding(crate::specs::Plain::store_at, lwc_base::specs::Store::store))]
fn store_at<W: World>(
    world: &mut W,
    context: Name,
    at: u64,
    bytes: &[u8],
    job: u32,
) -> Result<(), StoreFault>
    requires live { IsLive (W.seen world.old) context }
    requires short { length bytes.now ≤ PAGE_BYTES }
    requires may { MayName (W.seen world.old) job }
    ensures done { OnOk result (spec.store_at (W.seen world.old) context job at bytes.now
        ≡ stores.Done (W.seen world.new)) }
    ensures bad_address { (result ≡ Err StoreFault.BadAddress) ↔
        (spec.store_at (W.seen world.old) context job at bytes.now ≡ stores.Absent) }
    ensures read_only { (result ≡ Err StoreFault.ReadOnly) ↔
        (spec.store_at (W.seen world.old) context job at bytes.now ≡ stores.ReadOnly) }
    ensures no_frame { (result ≡ Err StoreFault.NoFrame) ↔
        (spec.store_at (W.seen world.old) context job at bytes.now ≡ stores.Full) }
    ensures err { OnErr result (W.seen world.new ≡ W.seen world.old) }
    ensures ample { W.roomy ≡ true → result ≢ Err StoreFault.OutOfMemory }
    ensures live { OnOk result ((d : names.Name) →
        is_live (W.seen world.new) d ≡ is_live (W.seen world.old) d) }
{
    if bytes.is_empty() {
        return Ok(());
    }
    if !is_within(world.pages(), at, bytes.len()) {
        return Err(StoreFault::BadAddress);
    }
    world.store(context, at as u32, bytes, job)
}

/// Writes `count` bytes from the address `at` through the descriptor in a slot.
#[inline(never)]
#[tactic(auto, unfolding(crate::specs::Plain::writing))]
pub fn write<W: World>(
    world: &W,
    io: &mut Channels,
    targets: &CallContexts,
    number: u64,
    at: u64,
    count: u64,
) -> CallAnswer
    requires memory { IsLive (W.seen world.now) targets.now.memory }
    requires slots { IsLive (W.seen world.now) targets.now.slots }
    requires files { HasItsFiles io.old (W.seen world.now) }
    ensures { spec.writing (W.seen world.now) io.old targets.now number at count
        ≡ record { answer = result; world = W.seen world.now; io = io.new } }
{
    let Some((_, value)) = filled_slot(world, targets.slots, number) else {
        return CallAnswer::Refused(Refusal::BadFd);
    };
    if !is_written(value) {
        return CallAnswer::Refused(Refusal::WrongKind);
    }
    if count > MOST_BYTES_OF_CALL as u64 {
        return CallAnswer::Refused(Refusal::TooLong);
    }
    if count <= SHORT_WRITE_BYTES as u64 {
        let mut buffer = [0; SHORT_WRITE_BYTES];
        write_through(
            world,
            io,
            value,
            targets.memory,
            at,
            &mut buffer[..count as usize],
        )
    } else {
        let mut buffer = [0; MOST_BYTES_OF_CALL];
        write_through(
            world,
            io,
            value,
            targets.memory,
            at,
            &mut buffer[..count as usize],
        )
    }
}

/// Writes through a descriptor that can be written as many bytes from the address `at` as a buffer, into which
/// they are read, has room for.
fn write_through<W: World>(
    world: &W,
    io: &mut Channels,
    value: Lent<'_>,
    memory: Name,
    at: u64,
    buffer: &mut [u8],
) -> CallAnswer
    requires live { IsLive (W.seen world.now) memory }
    requires range { IsInRange io.old (descriptor_of value) }
    requires written { spec.is_written (descriptor_of value) ≡ true }
    requires short { length buffer.old ≤ MOST_BYTES_OF_CALL }
    ensures { let w = W.seen world.now in
        let count = length buffer.old in
        let value = descriptor_of value.entry in
        let bytes = bytes_for w memory at count in
        spec.ended w io.old (spec.write_refusals io.old value count bytes)
        (spec.answering count w (spec.written io.old value (unwrap_or bytes [])))
        ≡ record { answer = result; world = w; io = io.new } }
{
    if !bytes_for(world, memory, at, buffer) {
        return CallAnswer::Refused(Refusal::BadAddress);
    }
    if !append(io, value, buffer) {
        return CallAnswer::Refused(Refusal::ReplyFull);
    }
    CallAnswer::Value(buffer.len() as u64)
}

/// Whether a descriptor can be written.
fn is_written(value: Lent<'_>) -> bool
    ensures { result ≡ spec.is_written (descriptor_of value.entry) }
{
    matches!(value, Lent::Console | Lent::Reply { .. })
}

/// Appends bytes where a descriptor writes. `false` says that the limit would be passed, and then nothing has
/// changed.
fn append(io: &mut Channels, value: Lent<'_>, bytes: &[u8]) -> bool
    requires { IsInRange io.old (descriptor_of value) }
    ensures room { result ≡ not (spec.passes_limit io.old (descriptor_of value.entry) (length bytes.now)) }
    ensures written { io.new ≡
        (if result then spec.written io.old (descriptor_of value.entry) bytes.now else io.old) }
{
    match value {
        Lent::Console if io.console().len() + bytes.len() <= MOST_CONSOLE_BYTES => {
            io.append_console(bytes);
            true
        }
        Lent::Reply { r } if io.reply(r).len() + bytes.len() <= MOST_REPLY_BYTES => {
            io.append_reply(r, bytes);
            true
        }
        Lent::Console | Lent::Reply { .. } => false,
        _ => true,
    }
}
