//! The lines of replies, written until a write fails.
ghost use Rattle.std.specs.Prelude.{◌≡◌, ◌++◌, List, ℕ, IfOk, false};
ghost use Rattle.lwc_io.specs.Outside.{SinkView};
ghost use Rattle.lwc_stream.specs.Replies.{IsWritten, line_of};

use lwc_base::OutOfMemory;
use lwc_io::{Sink, write_whole};
use lwc_text::{MOST_REPLY_LINE_BYTES, reply_line};
use snapshot_host::FinishedView;
use std::alloc::Global;
use std::marker::Model;

/// A line with room for any reply, and whether a write of one has failed, which is what contracts see.
#[derive(Drop)]
pub(crate) struct LineWriter {
    line: Vec<u8>,
    failed: bool,
}

impl Model for LineWriter {
    ghost use Rattle.std.specs.Prelude.{◌≤◌, Bool, vec_capacity};
    ghost use Rattle.lwc_text.specs.declared.lines.TheConstants.{MOST_REPLY_LINE_BYTES};

    ghost Value = { Bool };

    ghost view = { λ w. w.failed };

    ghost invariant = { λ w. MOST_REPLY_LINE_BYTES ≤ vec_capacity w.line };
}

impl LineWriter {
    /// A writer that has written nothing. The only error is out of memory.
    pub(crate) fn open(alloc: Global) -> Result<LineWriter, OutOfMemory>
        ensures { IfOk result (λ w. w ≡ false) }
    {
        let line = Vec::with_capacity(alloc, MOST_REPLY_LINE_BYTES)?;
        let failed = false;
        Ok(LineWriter { line, failed })
    }

    /// Whether a write has failed.
    pub(crate) fn has_failed(&self) -> bool
        ensures { result ≡ self.now }
    {
        self.failed
    }

    /// Writes the line of a reply, unless a write has failed. It takes no memory.
    pub(crate) fn write<O: Sink>(&mut self, out: &mut O, reply: FinishedView<'_>)
        ensures { (before : SinkView) (text : List ℕ) →
            IsWritten self.old before (O.seen out.old) text →
            IsWritten self.new before (O.seen out.new) (text ++ line_of reply.entry) }
    {
        if self.failed {
            return;
        }
        self.line.clear();
        let Ok(()) = reply_line(&mut self.line, reply.request, Some(reply)) else {
            unreachable!();
        };
        self.failed = write_whole(out, self.line.as_slice()).is_err();
    }
}
