//! The answers to commands.

ghost use Rattle.std.specs.Prelude.{◌≡◌, ◌++◌, ◌*◌, ◌≤◌, if◌then◌else◌, IfOk, OnErr, OnOk, codes};
ghost use Rattle.std.specs.Prelude.{nat_lt, string_bytes};
ghost use Rattle.std.specs.Option.{option_map_or};
ghost use Rattle.lwc_base.specs.Cells.{slot_at};
ghost use Rattle.lwc_base.specs.Lending.{descriptor_of};
ghost use Rattle.lwc_base.specs.Memory.{load};
ghost use Rattle.lwc_base.specs.Summaries.{summary_of};
ghost use Rattle.lwc_base.specs.World.{is_live};
ghost use Rattle.lwc_types.specs.declared.key.TheConstants.{SLOTS};
ghost use Rattle.lwc_types.specs.declared.page.TheConstants.{PAGE_BYTES};
ghost use Rattle.kernel_core.specs.Kernel.{machine_of, view_of};
ghost use Rattle.lwc_text.specs.Lines as lines;
ghost use Rattle.lwc_debug.specs.Transcript as spec;

use crate::command::Command;
use crate::moving::place_for;
use kernel_core::Kernel;
use lwc_base::{Lent, Name, OutOfMemory, PAGE_BYTES, SLOTS, SlotNumber};
use lwc_text::{bytes_text, context_line, name_text, thread_lines, used_line};
use std::alloc::Global;
use world_face::World;

/// Appends the answer to a command that is given at this place, one of this number of steps and one more,
/// where the kernel is (`answer`). The only error is out of memory, and nothing is appended then.
#[tactic(auto, unfolding(crate::specs::Transcript::answer))]
pub fn answer<W: World>(
    out: &mut Vec<u8>,
    kernel: &Kernel<W>,
    count: usize,
    at: usize,
    command: Command,
) -> Result<(), OutOfMemory>
    requires { at ≤ count }
    ensures ok { OnOk result (out.new.items
        ≡ out.old.items ++ spec.answer (machine_of kernel.now) count at command) }
    ensures err { OnErr result (out.new.items ≡ out.old.items) }
{
    let world = kernel.world();
    match command {
        Command::Goto { .. } | Command::Forward { .. } | Command::Back { .. } => {
            move_line(out, place_for(count, at, command))
        }
        Command::Thread { t } => thread_answer(out, kernel, t),
        Command::Context { name } => context_answer(out, world, name),
        Command::Page { name, p } => page_answer(out, world, name, p),
        Command::Slot { name, n } => slot_answer(out, world, name, n),
        Command::Used => used_line(out, world.used()),
    }
}

/// Appends the line of a move to this place, or that there is none.
fn move_line(out: &mut Vec<u8>, place: Option<usize>) -> Result<(), OutOfMemory>
    ensures ok { OnOk result (out.new.items ≡ out.old.items ++ spec.move_line place) }
    ensures err { OnErr result (out.new.items ≡ out.old.items) }
{
    match place {
        None => append(out, "no step\n"),
        Some(n) => {
            let line = format!(in *out.allocator(); "at {n}\n")?;
            append(out, line.as_str())
        }
    }
}

/// Appends the lines of a thread, or that there is no such thread.
#[tactic(auto, using(crate::proofs::Living::no_view))]
fn thread_answer<W: World>(
    out: &mut Vec<u8>,
    kernel: &Kernel<W>,
    thread_number: u32,
) -> Result<(), OutOfMemory>
    ensures ok { OnOk result (out.new.items ≡ out.old.items
        ++ option_map_or (lines.thread_lines thread_number) (view_of (machine_of kernel.now) thread_number)
        (codes "no thread\n")) }
    ensures err { OnErr result (out.new.items ≡ out.old.items) }
{
    if thread_number >= kernel.thread_count() {
        return append(out, "no thread\n");
    }
    thread_lines(out, thread_number, &kernel.thread(thread_number))
}

/// Appends the line of a context, or that it is not live.
fn context_answer<W: World>(out: &mut Vec<u8>, world: &W, name: Name) -> Result<(), OutOfMemory>
    ensures ok { OnOk result (out.new.items ≡ out.old.items
        ++ spec.of_live (W.seen world.now) name
        (lines.context_line name (summary_of (W.seen world.now) name))) }
    ensures err { OnErr result (out.new.items ≡ out.old.items) }
{
    if !is_live(world, name) {
        return append(out, "no context\n");
    }
    context_line(out, name, &world.summary(name))
}

/// Appends the line of a page of a context, or that the context is not live, or that there is no such page.
fn page_answer<W: World>(
    out: &mut Vec<u8>,
    world: &W,
    name: Name,
    page_number: u32,
) -> Result<(), OutOfMemory>
    ensures ok { OnOk result (out.new.items ≡ out.old.items
        ++ spec.of_live (W.seen world.now) name
        (if nat_lt page_number (W.seen world.now).size.pages
        then spec.page_line name page_number (load (W.seen world.now) name (page_number * PAGE_BYTES) PAGE_BYTES)
        else codes "no page\n")) }
    ensures err { OnErr result (out.new.items ≡ out.old.items) }
{
    if !is_live(world, name) {
        return append(out, "no context\n");
    }
    if page_number >= u32::from(world.pages()) {
        return append(out, "no page\n");
    }
    let alloc = *out.allocator();
    let mut bytes = [0; PAGE_BYTES];
    let text = if world.bytes(name, page_number * PAGE_BYTES as u32, &mut bytes) {
        bytes_text(alloc, &bytes)?
    } else {
        String::from_str(alloc, "absent")?
    };
    let name = name_text(alloc, name)?;
    let line = format!(in alloc; "page {name} {page_number} {text}\n")?;
    append(out, line.as_str())
}

/// Appends the line of a slot of a context, or that the context is not live, or that there is no such slot.
fn slot_answer<W: World>(
    out: &mut Vec<u8>,
    world: &W,
    name: Name,
    slot_number: u32,
) -> Result<(), OutOfMemory>
    ensures ok { OnOk result (out.new.items ≡ out.old.items
        ++ spec.of_live (W.seen world.now) name
        (if nat_lt slot_number SLOTS then spec.slot_line name slot_number (slot_at (W.seen world.now) name slot_number)
        else codes "no slot\n")) }
    ensures err { OnErr result (out.new.items ≡ out.old.items) }
{
    if !is_live(world, name) {
        return append(out, "no context\n");
    }
    if slot_number >= u32::from(SLOTS) {
        return append(out, "no slot\n");
    }
    let alloc = *out.allocator();
    let text = slot_text(alloc, world.slot(name, slot_number as SlotNumber))?;
    let name = name_text(alloc, name)?;
    let line = format!(in alloc; "slot {name} {slot_number} {text}\n")?;
    append(out, line.as_str())
}

/// Whether a context has the name.
#[tactic(auto, using(crate::proofs::Living::living))]
pub fn is_live<W: World>(world: &W, name: Name) -> bool
    ensures { result ≡ is_live (W.seen world.now) name }
{
    'contexts: for i in 0..world.context_count() {
        let Some(found) = world.nth_context(i) else {
            unreachable!();
        };
        if found == name {
            return true;
        }
    }
    false
}

/// What is in a slot.
#[tactic(auto, unfolding(crate::specs::Transcript::slot_text))]
fn slot_text(alloc: Global, value: Lent<'_>) -> Result<String, OutOfMemory>
    ensures { IfOk result (λ text. string_bytes text ≡ spec.slot_text (descriptor_of value.entry)) }
{
    match value {
        Lent::Empty => Ok(String::from_str(alloc, "empty")?),
        Lent::Console => Ok(String::from_str(alloc, "console")?),
        Lent::File { file, at } => Ok(format!(in alloc; "file {file} at {at}")?),
        Lent::Request { r, at } => Ok(format!(in alloc; "request {r} at {at}")?),
        Lent::Reply { r } => Ok(format!(in alloc; "reply {r}")?),
        Lent::Ctx { name, .. } => {
            let name = name_text(alloc, name)?;
            Ok(format!(in alloc; "context {name}")?)
        }
    }
}

/// Appends a text.
fn append(out: &mut Vec<u8>, text: &str) -> Result<(), OutOfMemory>
    ensures ok { OnOk result (out.new.items ≡ out.old.items ++ text.now) }
    ensures err { OnErr result (out.new.items ≡ out.old.items) }
{
    out.extend_from_slice(text.as_bytes())?;
    Ok(())
}
