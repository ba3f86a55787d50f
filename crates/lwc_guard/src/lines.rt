ghost use Rattle.std.specs.Prelude.{◌≡◌, ◌++◌, OnOk};
ghost use Rattle.lwc_guard.specs.Reports.{fuel_line, fuel_of, guard_line, guards_text};

use crate::guards::Guards;
use lwc_base::{Name, OutOfMemory};
use lwc_monitor::traps::Traps;
use lwc_text::{name_text, trap_line};

/// Appends the lines of the traps, with the fuel of those that have some. The only error is out of memory.
#[tactic(auto, unfolding(crate::specs::Reports::guards_text))]
pub fn guard_lines(out: &mut Vec<u8>, traps: &Traps, guards: &Guards) -> Result<(), OutOfMemory>
    ensures { OnOk result (out.new.items ≡ out.old.items ++ guards_text traps.now guards.now) }
{
    'traps: for pair in traps.pairs() {
        guard_line(out, guards, pair.0, pair.1)?;
    }
    Ok(())
}

/// Appends the line of a trapped context, with its fuel if it has some. The only error is out of memory.
fn guard_line(
    out: &mut Vec<u8>,
    guards: &Guards,
    trapped: Name,
    monitor: Name,
) -> Result<(), OutOfMemory>
    ensures { OnOk result
        (out.new.items ≡ out.old.items ++ guard_line (fuel_of guards.now trapped) trapped monitor) }
{
    match guards.guard_of(trapped) {
        Some(guard) => fuel_line(out, trapped, monitor, guard.fuel),
        None => trap_line(out, trapped, monitor),
    }
}

/// Appends the line of a guarded context (`fuel_line`). The only error is out of memory.
#[tactic(auto, unfolding(crate::specs::Reports::fuel_line))]
fn fuel_line(out: &mut Vec<u8>, trapped: Name, monitor: Name, fuel: u32) -> Result<(), OutOfMemory>
    ensures { OnOk result (out.new.items ≡ out.old.items ++ fuel_line trapped monitor fuel) }
{
    let alloc = *out.allocator();
    let trapped = name_text(alloc, trapped)?;
    let monitor = name_text(alloc, monitor)?;
    let line = format!(in alloc; "trap {trapped} by {monitor} fuel {fuel}\n")?;
    Ok(out.extend_from_slice(line.as_bytes())?)
}
