ghost use Rattle.std.specs.Prelude.{◌≡◌};
ghost use Rattle.lwc_base.specs.Channels.{Channels};
ghost use Rattle.lwc_syscall.specs.Plain as spec;
ghost use Rattle.world_face.specs.Calls.{IsLive};

use crate::answer::CallAnswer;
use lwc_base::{Name, Refusal, may_set};
use world_face::World;

/// Changes the uid of a credential.
pub fn set_uid<W: World>(world: &mut W, cred: Name, uid: u64) -> CallAnswer
    requires { IsLive (W.seen world.old) cred }
    ensures { (io : Channels) → spec.becoming (W.seen world.old) io cred uid
        ≡ record { answer = result; world = W.seen world.new; io = io } }
{
    if uid > u64::from(u32::MAX) {
        return CallAnswer::Refused(Refusal::BadRange);
    }
    if !may_set(world.uid(cred), uid as u32) {
        return CallAnswer::Refused(Refusal::NotPermitted);
    }
    world.set_uid(cred, uid as u32);
    CallAnswer::Value(0)
}
