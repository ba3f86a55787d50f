//! The summary of a serve.

ghost use Rattle.std.specs.Prelude.{◌≡◌, IfOk};
ghost use Rattle.kernel_core.specs.Kernel.{machine_of};
ghost use Rattle.lwc_gen.specs.Summary as spec;

use crate::totals::Totals;
use kernel_core::Kernel;
use lwc_base::OutOfMemory;
use std::alloc::Global;
use world_face::World;

/// The summary of a serve whose requests were made from a number: how many there are, how many of them ended
/// with code 0, and what their replies add up to. The only error is out of memory.
#[tactic(auto, unfolding(kernel_core::specs::Kernel::machine_of))]
pub fn summary<W: World>(
    alloc: Global,
    number: u32,
    kernel: &Kernel<W>,
) -> Result<Vec<u8>, OutOfMemory>
    ensures { IfOk result (λ line. line.items
        ≡ spec.summary_after kernel.now.inputs number kernel.now.steps) }
{
    totals(kernel).line(alloc, number)
}

/// What the replies to all requests add up to.
fn totals<W: World>(kernel: &Kernel<W>) -> Totals
    ensures { result ≡ spec.totals_of (spec.replies_of (machine_of kernel.now)) }
{
    let mut totals = Totals::none();
    'requests: for r in 0..kernel.request_count() as u16 {
        match kernel.reply(r) {
            None => totals.add(None, &[]),
            Some(finished) => totals.add(Some(finished.status), finished.bytes),
        }
    }
    totals
}
