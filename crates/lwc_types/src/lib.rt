//! Plain types of the kernel, its limits, and what a reader of bytes answers. Nothing here speaks of a world.
#![tactic(auto)]

pub mod counters;
pub mod fault;
pub mod file_image;
pub mod key;
pub mod limits;
pub mod memory;
pub mod name;
pub mod page;
pub mod range;
pub mod reading;
pub mod refusal;
pub mod regs;
pub mod right;
pub mod sequence;
pub mod size;

pub use counters::Counters;
pub use fault::{Fault, ThreadStatus};
pub use file_image::FileImage;
pub use key::{Key, Kind, NOBODY, PageNumber, SLOTS, SlotNumber};
pub use limits::{
    MOST_BUDGET, MOST_BYTES_OF_CALL, MOST_BYTES_OF_FORM_ONE, MOST_CONSOLE_BYTES, MOST_CONTEXTS,
    MOST_CONTEXTS_OF_JOB, MOST_FILE_BYTES, MOST_FILES, MOST_FRAMES, MOST_GROUPS,
    MOST_GROUPS_OF_JOB, MOST_IMAGE_BYTES, MOST_IMAGE_SLOTS, MOST_INSTRUCTIONS, MOST_ITEMS,
    MOST_JOBS, MOST_KEPT_ROOTS, MOST_PAGE_PLACES, MOST_PAGE_RUNS, MOST_PAGES, MOST_RANGES,
    MOST_REPLY_BYTES, MOST_REQUEST_BYTES, MOST_REQUEST_FILE_BYTES, MOST_REQUESTS, MOST_ROOTS,
    MOST_SCHEDULE_BYTES, MOST_SLOT_PLACES, MOST_SOURCE_BYTES, MOST_STEPS, MOST_THREADS,
    PAGES_OF_FORM_ONE,
};
pub use memory::OutOfMemory;
pub use name::{Name, Tag};
pub use page::{PAGE_BYTES, PageBytes, PageValue};
pub use range::Range;
pub use reading::ReadError;
pub use refusal::Refusal;
pub use regs::Regs;
pub use right::Right;
pub use sequence::Sequence;
pub use size::{StoreFault, Summary, WorldSize};
