ghost use Rattle.std.specs.Prelude.{IfOk};
ghost use Rattle.lwc_io.specs.Outside.{FilesView};
ghost use Rattle.lwcrun_inputs.specs.Ends.{Ended};
ghost use Rattle.lwcrun_core.specs.Works.{IsText, Work};
ghost use Rattle.lwcrun_inputs.specs.Plans as plans;
ghost use Rattle.lwcrun_inputs.specs.Views.{end_of, outside};

use lwc_base::OutOfMemory;
use lwc_io::{Sink, write_whole};
use lwcrun_inputs::Ending;

/// Writes the text of a work, or ends the call without it if there was no memory for it.
pub fn write_work<'a, O: Sink>(out: &mut O, text: Result<Vec<u8>, OutOfMemory>) -> Ending<'a>
    ensures { (work : Work) (files : FilesView) → IfOk text (λ bytes. IsText work bytes.items)
        → Ended IsText (outside files files (O.seen out.old) (O.seen out.new))
        (plans.Write work) (end_of result) }
{
    match text {
        Ok(text) => match write_whole(out, text.as_slice()) {
            Ok(()) => Ending::Done,
            Err(_) => Ending::Unwritten,
        },
        Err(_) => Ending::NoMemory,
    }
}
