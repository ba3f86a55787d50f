ghost use Rattle.std.specs.Prelude.{◌≡◌, ◌+◌, ◌-◌, ◌*◌, ◌/◌, ◌%◌, ◌<◌, ◌≤◌};
ghost use Rattle.std.specs.List.{range_with_len};
ghost use Rattle.lwc_base.specs.Memory.{touched};
ghost use Rattle.lwc_types.specs.declared.limits.TheConstants.{MOST_PAGES};
ghost use Rattle.lwc_types.specs.declared.page.TheConstants.{PAGE_BYTES};

use lwc_types::{PAGE_BYTES, PageNumber, Range};

/// The pages that some bytes from an address on touch; none for no bytes.
#[tactic(auto, unfolding(crate::specs::Memory::touched))]
pub fn touched_pages(at: usize, count: usize) -> Range
    requires { at + count ≤ MOST_PAGES * PAGE_BYTES }
    ensures pages { range_with_len result.from (result.to - result.from) ≡ touched at count }
    ensures from { result.from ≡ at / PAGE_BYTES }
    ensures one { result.to - result.from ≡ 1 → at % PAGE_BYTES + count ≤ PAGE_BYTES }
    ensures order { result.from ≤ result.to }
    ensures last { result.to ≤ (at + count) / PAGE_BYTES + 1 }
{
    let from = at / PAGE_BYTES;
    let to = if count == 0 {
        from
    } else {
        (at + count - 1) / PAGE_BYTES + 1
    };
    Range {
        from: from as PageNumber,
        to: to as PageNumber,
    }
}
