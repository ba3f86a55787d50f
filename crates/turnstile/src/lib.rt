//! A ticket lock round a state that knows its past.
//!
//! A `Turnstile` guards a state whose type is `Turned`: its contracts give it a name, and a past, which is
//! the list of the numbers of the passes that had a turn. `Turnstile::new` makes the lock and its passes. A
//! thread with a pass has a turn by `with_turn`, asks how many turns there were by `served`, and whoever
//! has all the passes takes the state back by `close`. What the holder of a pass knows lies in the pass:
//!
//! - after each turn it has seen the whole past up to its turn, and of its own turns there are just those
//!   that it had (`with_turn`: `called`, `front`, `count`);
//! - what `served` answers is never taken back: later turns and the end have more turns, or as many
//!   (`served`, and `later` of `with_turn`, `noted` of `close`);
//! - at the end all passes agree: each has seen a beginning of the one past (`close`: `seen`).
//!
//! Beneath lies a table of the kit's `atomic_table` with two words, `next` and `serving`, and one slot for
//! the state. `specs/Rule.antt` has the rule that holds at every moment, and `specs/Steps.antt` what each
//! kind of step does: draw ticket, look, move out, move in, pass on, split seat and join seat. `moves.rt`
//! has one function for each kind. Before the table is a mutex that threads lock before their turns
//! (`waiting.rt`). It decides who has the next turn, and no clause speaks of it.
#![tactic(auto)]

mod lock;
mod moves;
mod passes;
mod queue;
mod states;
mod views;
mod waiting;

pub use lock::Turnstile;
pub use lwc_types::OutOfMemory;
pub use passes::{HoldsPass, Pass, Passes};
pub use states::Turned;
pub use waiting::Mutex;
