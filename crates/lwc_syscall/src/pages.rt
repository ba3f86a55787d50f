ghost use Rattle.std.specs.Prelude.{◌≡◌, IfOk, IsOk, OnErr, true};
ghost use Rattle.lwc_base.specs.Channels.{Channels};
ghost use Rattle.lwc_syscall.specs.Plain as spec;
ghost use Rattle.world_face.specs.Calls.{IsLive};

use crate::answer::CallAnswer;
use lwc_base::{MOST_RANGES, Name, OutOfMemory, PageNumber, Range, Refusal};
use world_face::World;

/// Maps or unmaps the pages of a range. The only error is out of memory, and then nothing has changed.
pub fn map<W: World>(
    world: &mut W,
    memory: Name,
    from: u64,
    to: u64,
    present: bool,
) -> Result<CallAnswer, OutOfMemory>
    requires { IsLive (W.seen world.old) memory }
    ensures done { IfOk result (λ answer. (io : Channels) →
        spec.mapping (W.seen world.old) io memory from to present
        ≡ record { answer = answer; world = W.seen world.new; io = io }) }
    ensures err { OnErr result (W.seen world.new ≡ W.seen world.old) }
    ensures ample { W.roomy ≡ true → IsOk result }
{
    if to <= from || to > u64::from(world.pages()) {
        return Ok(CallAnswer::Refused(Refusal::BadRange));
    }
    let range = Range {
        from: from as PageNumber,
        to: to as PageNumber,
    };
    if world.ranges_after_map(memory, range, present) > MOST_RANGES {
        return Ok(CallAnswer::Refused(Refusal::TooManyRanges));
    }
    if present {
        world.map(memory, range)?;
    } else {
        world.unmap(memory, range)?;
    }
    Ok(CallAnswer::Value(0))
}
