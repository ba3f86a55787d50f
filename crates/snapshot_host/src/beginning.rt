ghost use Rattle.std.specs.Prelude.{◌≡◌, ◌<◌, ◌≤◌, ◌+◌, IfOk, IsOk, OnErr, OnOk, true};
ghost use Rattle.lwc_base.specs.Ranges.{ranges_of};
ghost use Rattle.lwc_base.specs.Sound.{HasItsGroups};
ghost use Rattle.lwc_types.specs.declared.limits.TheConstants.{MOST_RANGES};
ghost use Rattle.snapshot_host.specs.Begin as spec;
ghost use Rattle.snapshot_host.specs.Begin.{IsNewJob};
ghost use Rattle.world_face.specs.Calls.{HasPlace, IsLive};

use lwc_base::{Items, Lent, Name, OutOfMemory};
use world_face::World;

/// Makes the context that a request is served in: a whole copy of the home, but for slots 0 and 1, which
/// have the request and its reply (`begin`). Answers its name. The only error is out of memory, and then
/// nothing has changed.
#[tactic(auto, using(crate::proofs::Copies::begins, lwc_base::proofs::Facts::changes))]
pub fn begin<W: World>(world: &mut W, home: Name, request: u16) -> Result<Name, OutOfMemory>
    requires live { IsLive (W.seen world.old) home }
    requires groups { HasItsGroups (W.seen world.old) }
    requires few { ranges_of (W.seen world.old) home ≤ MOST_RANGES }
    requires known { request + 1 < (W.seen world.old).size.jobs }
    requires new_job { IsNewJob (W.seen world.old) (request + 1) }
    requires place { HasPlace (W.seen world.old) }
    ensures name { IfOk result (λ c. c ≡ spec.request_context request) }
    ensures begun { OnOk result (W.seen world.new ≡ spec.begin (W.seen world.old) home request) }
    ensures err { OnErr result (W.seen world.new ≡ W.seen world.old) }
    ensures ample { W.roomy ≡ true → IsOk result }
{
    let entry = world.entry(home);
    let name = world.clone_context(home, &Items::empty(), u32::from(request) + 1, &entry)?;
    world.set_slot(name, 1, Lent::Reply { r: request });
    world.set_slot(name, 0, Lent::Request { r: request, at: 0 });
    Ok(name)
}
