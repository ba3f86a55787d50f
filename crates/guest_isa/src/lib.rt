//! The instructions of the guest machine, and their bytes.
#![tactic(auto)]

mod instr;
mod op;
mod spelling;
mod text;

pub use instr::{Instr, fields_are_in_range};
pub use op::{Field, Form, Op};
pub use spelling::{decode, encode, spelling_is_inverse};
pub use text::Text;
