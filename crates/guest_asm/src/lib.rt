//! Sources of guests, made into images.
#![tactic(auto)]

mod assembly;
mod draft;
mod error;
mod mnemonics;
mod name;
mod numbers;
mod operand;
mod parts;
mod source;
mod statement;
mod words;

pub use assembly::assemble;
pub use error::{SourceError, SourceRule};
pub use parts::{FileDraft, PageDraft, SlotDraft};
