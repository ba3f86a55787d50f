ghost use Rattle.std.specs.Prelude.{◌≡◌, ◌≤◌, ◌+◌, ◌*◌, IfNone, IfSome, length, is_some, nat_le};
ghost use Rattle.lwc_base.specs.Memory as memory;
ghost use Rattle.lwc_types.specs.declared.limits.TheConstants.{MOST_PAGES};
ghost use Rattle.lwc_types.specs.declared.page.TheConstants.{PAGE_BYTES};
ghost use Rattle.world_face.specs.Calls.{IsLive};

use crate::world::World;
use lwc_base::{Name, PAGE_BYTES, PageNumber};

/// Whether `count` bytes from the address `at` on end within `pages` pages.
pub fn is_within(pages: PageNumber, at: u64, count: usize) -> bool
    requires { pages ≤ MOST_PAGES }
    ensures { result ≡ nat_le (at + count) (pages * PAGE_BYTES) }
{
    let memory = u64::from(pages) * PAGE_BYTES as u64;
    at <= memory && count as u64 <= memory - at
}

/// Reads bytes of a context's memory from an address that a guest names, as many as `out` has room for.
/// `false` says that one of them is past the last page or in an absent page, and `out` is then as it was.
#[tactic(auto, unfolding(lwc_base::specs::Memory::bytes_for))]
pub fn bytes_for<W: World>(world: &W, context: Name, at: u64, out: &mut [u8]) -> bool
    requires live { IsLive (W.seen world.now) context }
    ensures present { result ≡ is_some (memory.bytes_for (W.seen world.now) context at (length out.old)) }
    ensures found { IfSome (memory.bytes_for (W.seen world.now) context at (length out.old))
        (λ bytes. out.new ≡ bytes) }
    ensures absent { IfNone (memory.bytes_for (W.seen world.now) context at (length out.old))
        (out.new ≡ out.old) }
{
    out.is_empty()
        || (is_within(world.pages(), at, out.len()) && world.bytes(context, at as u32, out))
}

/// Reads as `bytes_for` does, where the world may note where the bytes are.
#[inline(always)]
#[tactic(auto, unfolding(lwc_base::specs::Memory::bytes_for))]
pub fn load_for<W: World>(world: &mut W, context: Name, at: u64, out: &mut [u8]) -> bool
    requires live { IsLive (W.seen world.old) context }
    ensures present { result ≡ is_some (memory.bytes_for (W.seen world.old) context at (length out.old)) }
    ensures found { IfSome (memory.bytes_for (W.seen world.old) context at (length out.old))
        (λ bytes. out.new ≡ bytes) }
    ensures absent { IfNone (memory.bytes_for (W.seen world.old) context at (length out.old))
        (out.new ≡ out.old) }
    ensures same { W.seen world.new ≡ W.seen world.old }
{
    if out.is_empty() {
        return true;
    }
    is_within(world.pages(), at, out.len()) && world.load(context, at as u32, out)
}
