//! Which pages of a context are present, whether each is its own or common of a group, and its right, by
//! segments.
#![tactic(auto)]

pub mod laws;
pub mod map;
pub(crate) mod runs;
pub mod segment;

pub use laws::{ranges_are_those_of_the_context, ranges_go_by_states};
pub use map::{RangeMap, TooManyRanges};
pub use runs::{ended_by, sooner_edge};
pub use segment::{Change, PageState, Segment, SegmentKind};
