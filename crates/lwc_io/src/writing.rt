ghost use Rattle.std.specs.Prelude.{◌≡◌, OnOk, OnErr};
ghost use Rattle.lwc_io.specs.Outside.{CountsOneFault, IsPartTaken, appended};

use crate::outside::{Failed, Sink};

/// Writes the text whole, piece by piece.
///
/// # Errors
///
/// `Failed` if a write failed; the sink has then taken the first bytes of the text and nothing else.
pub fn write_whole<O: Sink>(out: &mut O, text: &[u8]) -> Result<(), Failed>
    ensures whole { OnOk result ((O.seen out.new).taken ≡ appended (O.seen out.old).taken text.now) }
    ensures part { OnErr result (IsPartTaken (O.seen out.old).taken (O.seen out.new).taken text.now) }
    ensures no_fault { OnOk result ((O.seen out.new).faults ≡ (O.seen out.old).faults) }
    ensures cause { OnErr result (CountsOneFault (O.seen out.old).faults (O.seen out.new).faults) }
{
    let mut at = 0;
    while at < text.len() {
        at += out.write(&text[at..])?;
    }
    Ok(())
}
