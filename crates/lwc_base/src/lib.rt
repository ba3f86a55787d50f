//! The definitions of the kernel's world (contexts, groups, values under keys, frames, and the store of bytes), its
//! changes and their laws, with the types that they speak of. The plain types of `lwc_types` are offered here, too.
#![tactic(auto)]

pub mod answer;
pub mod cell;
pub mod channels;
pub mod descriptor;
pub mod item;
pub mod items;
pub mod laws;
mod replies;
pub mod touched;

pub use answer::{Answer, Moved};
pub use cell::Cell;
pub use channels::{Channels, Requests, may_open, may_set};
pub use descriptor::{Cap, Descriptor, Grant, Lent};
pub use item::{Item, Mode};
pub use items::Items;
pub use lwc_types::{
    Counters, Fault, FileImage, Key, Kind, MOST_BUDGET, MOST_BYTES_OF_CALL, MOST_BYTES_OF_FORM_ONE,
    MOST_CONSOLE_BYTES, MOST_CONTEXTS, MOST_CONTEXTS_OF_JOB, MOST_FILE_BYTES, MOST_FILES,
    MOST_FRAMES, MOST_GROUPS, MOST_GROUPS_OF_JOB, MOST_IMAGE_BYTES, MOST_IMAGE_SLOTS,
    MOST_INSTRUCTIONS, MOST_ITEMS, MOST_JOBS, MOST_KEPT_ROOTS, MOST_PAGE_PLACES, MOST_PAGE_RUNS,
    MOST_PAGES, MOST_RANGES, MOST_REPLY_BYTES, MOST_REQUEST_BYTES, MOST_REQUEST_FILE_BYTES,
    MOST_REQUESTS, MOST_ROOTS, MOST_SCHEDULE_BYTES, MOST_SLOT_PLACES, MOST_SOURCE_BYTES,
    MOST_STEPS, MOST_THREADS, NOBODY, Name, OutOfMemory, PAGE_BYTES, PAGES_OF_FORM_ONE, PageBytes,
    PageNumber, PageValue, Range, ReadError, Refusal, Regs, Right, SLOTS, Sequence, SlotNumber,
    StoreFault, Summary, Tag, ThreadStatus, WorldSize,
};
pub use touched::touched_pages;
