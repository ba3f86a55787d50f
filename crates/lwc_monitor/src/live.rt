ghost use Rattle.std.specs.Prelude.{◌≡◌};
ghost use Rattle.lwc_base.specs.World as worlds;

use lwc_base::Name;
use world_face::World;

/// Whether a context of this name is live.
pub fn is_live<W: World>(world: &W, context: Name) -> bool
    ensures { result ≡ worlds.is_live (W.seen world.now) context }
{
    'contexts: for i in 0..world.context_count() {
        let Some(name) = world.nth_context(i) else {
            unreachable!();
        };
        if name == context {
            return true;
        }
    }
    false
}
