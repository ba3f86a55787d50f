use crate::key::PageNumber;

/// The pages from `from` up to and without `to`.
#[derive(Clone, Copy, Default, PartialEq, Eq)]
pub struct Range {
    pub from: PageNumber,
    pub to: PageNumber,
}
