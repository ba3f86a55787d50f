ghost use Rattle.std.specs.Prelude.{◌≡◌, true, IfOk, IsOk, OnErr};
ghost use Rattle.lwc_base.specs.Channels.{HasItsFiles};
ghost use Rattle.lwc_syscall.specs.Plain as spec;
ghost use Rattle.world_face.specs.Calls.{IsLive, MayName};

use crate::answer::CallAnswer;
use crate::bytes::{read, write};
use crate::pages::map;
use crate::plain_call::PlainCall;
use crate::slots::{close, dup, open};
use crate::uids::set_uid;
use lwc_base::{Channels, Name, OutOfMemory, Refusal};
use world_face::World;

/// The contexts of a call: one for the memory, one for the slots, and one for the credential.
#[derive(Clone, Copy, PartialEq, Eq)]
pub struct CallContexts {
    pub memory: Name,
    pub slots: Name,
    pub cred: Name,
}

/// Makes a plain call over three contexts, for a job, with its three arguments (`plain`). Where there is none, the
/// answer is the refusal of a bad call. The only error is out of memory, and then nothing has changed.
#[tactic(auto, unfolding(crate::specs::Plain::plain))]
pub fn plain<W: World>(
    world: &mut W,
    io: &mut Channels,
    targets: &CallContexts,
    job: u32,
    call: Option<PlainCall>,
    args: [u64; 3],
) -> Result<CallAnswer, OutOfMemory>
    requires memory { IsLive (W.seen world.old) targets.now.memory }
    requires slots { IsLive (W.seen world.old) targets.now.slots }
    requires cred { IsLive (W.seen world.old) targets.now.cred }
    requires may { MayName (W.seen world.old) job }
    requires files { HasItsFiles io.old (W.seen world.old) }
    ensures done { IfOk result (λ answer. spec.plain (W.seen world.old) io.old targets.now job call args
        ≡ record { answer = answer; world = W.seen world.new; io = io.new }) }
    ensures err { OnErr result (W.seen world.new ≡ W.seen world.old) }
    ensures err_io { OnErr result (io.new ≡ io.old) }
    ensures ample { W.roomy ≡ true → IsOk result }
{
    let [first, second, third] = args;
    match call {
        Some(PlainCall::Open) => Ok(open(world, io.files(), targets, first)),
        Some(PlainCall::Close) => Ok(close(world, targets.slots, first)),
        Some(PlainCall::Dup) => Ok(dup(world, targets.slots, first)),
        Some(PlainCall::Read) => read(world, io, targets, job, first, second, third),
        Some(PlainCall::Write) => Ok(write(world, io, targets, first, second, third)),
        Some(PlainCall::Map) => map(world, targets.memory, first, second, true),
        Some(PlainCall::Unmap) => map(world, targets.memory, first, second, false),
        Some(PlainCall::GetUid) => Ok(CallAnswer::Value(u64::from(world.uid(targets.cred)))),
        Some(PlainCall::SetUid) => Ok(set_uid(world, targets.cred, first)),
        Some(PlainCall::Exit) => Ok(CallAnswer::Exit(first)),
        None => Ok(CallAnswer::Refused(Refusal::BadCall)),
    }
}
