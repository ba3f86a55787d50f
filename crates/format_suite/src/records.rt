//! What is recorded of requests that are finished.

ghost use Rattle.std.specs.Prelude.{◌≡◌, ◌∷◌, [], IfOk};
ghost use Rattle.lwc_base.specs.Channels.{opened};

use crate::checks::check_equal;
use lwc_base::{Channels, Sequence, ThreadStatus};
use snapshot_host::finish;
use std::alloc::Global;
use std::test::Fail;

/// Channels with no file and one request, of the byte 9.
pub fn channels_of_one(alloc: Global) -> Result<Channels, Fail>
    ensures { IfOk result (λ io. io ≡ opened [] ((9 ∷ []) ∷ [])) }
{
    let request = Sequence::of(vec![in alloc; 9u8]?);
    let requests = Sequence::of(vec![in alloc; request]?);
    Ok(Channels::open(alloc, Sequence::of(Vec::new(alloc)), requests)?)
}

#[test]
fn the_bytes_so_far_are_recorded(rt: HostRuntime) -> Result<(), Fail> {
    let mut io = channels_of_one(rt.alloc())?;
    io.append_reply(0, [4, 5].as_slice());
    let finished = finish(&io, 0, ThreadStatus::Done { code: 3 });
    let same = finished.same();
    let seen = (same.request, same.status, same.bytes.as_slice());
    let done = ThreadStatus::Done { code: 3 };
    check_equal(&rt, seen, (0, done, [4, 5].as_slice()));
    Ok(())
}
