//! The pages of contexts and of groups alike, by place: the cell of each page, over one store of pages that
//! are shared until they are written. A copy shares the nodes and frames of what it copies, a page gets a
//! frame of its own when it is written, and a present page that was never written takes no frame.
#![tactic(auto)]

pub mod cells;
pub mod copies;
pub(crate) mod kinds;
pub mod laws;
pub mod page_runs;
pub(crate) mod parts;
pub mod row_writes;
pub mod rows;
pub mod writes;

pub use cells::PageCells;
pub use page_runs::{Origin, PageRun};
pub use rows::Rows;
pub use writes::NoFrame;
