//! The places of commands.

ghost use Rattle.std.specs.Prelude.{◌≡◌, ◌≤◌, IfSome};
ghost use Rattle.lwc_debug.specs.Transcript as spec;

use crate::command::Command;

/// The place after a command that is given at this place, one of this number of steps and one more.
#[tactic(auto, unfolding(crate::specs::Transcript::place_after))]
pub fn place_after(count: usize, at: usize, command: Command) -> usize
    requires { at ≤ count }
    ensures place { result ≡ spec.place_after count at command }
    ensures there { result ≤ count }
{
    match place_for(count, at, command) {
        Some(place) => place,
        None => at,
    }
}

/// The place that a command moves to, if it is a move and there is such a place.
pub fn place_for(count: usize, at: usize, command: Command) -> Option<usize>
    requires { at ≤ count }
    ensures place { result ≡ spec.place_in count (spec.asked_place at command) }
    ensures there { IfSome result (λ n. n ≤ count) }
{
    let place = match command {
        Command::Goto { n } => n as usize,
        Command::Forward { n } => at.checked_add(n as usize)?,
        Command::Back { n } => at.checked_sub(n as usize)?,
        _ => return None,
    };
    if place > count {
        return None;
    }
    Some(place)
}
