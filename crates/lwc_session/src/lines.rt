//! The line of a reply.

ghost use Rattle.std.specs.Prelude.{◌≡◌, ◌++◌, OnOk};
ghost use Rattle.lwc_session.specs.Sessions as spec;

use lwc_base::OutOfMemory;
use lwc_text::{bytes_text, reply_line};
use snapshot_host::FinishedView;

/// Appends the line of the reply to the request of a number. The only error is out of memory.
#[tactic(auto, unfolding(crate::specs::Sessions::served_line))]
pub(crate) fn served_line(
    out: &mut Vec<u8>,
    request: u16,
    finished: Option<FinishedView<'_>>,
    is_kept: bool,
) -> Result<(), OutOfMemory>
    ensures { OnOk result (out.new.items ≡ out.old.items ++ spec.served_line request finished.entry is_kept) }
{
    match finished {
        Some(finished) if is_kept => kept_line(out, request, finished.bytes),
        _ => reply_line(out, request, finished),
    }
}

/// Appends the line of a reply that was kept. The only error is out of memory.
fn kept_line(out: &mut Vec<u8>, request: u16, bytes: &[u8]) -> Result<(), OutOfMemory>
    ensures { OnOk result (out.new.items ≡ out.old.items ++ spec.kept_line request bytes.now) }
{
    let alloc = *out.allocator();
    let bytes = bytes_text(alloc, bytes)?;
    let line = format!(in alloc; "reply {request} kept 0 {bytes}\n")?;
    out.extend_from_slice(line.as_bytes())?;
    Ok(())
}
