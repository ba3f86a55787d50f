/// How many contexts, groups and tags a job has named; each is the number of the next one.
#[derive(Clone, Copy, PartialEq, Eq)]
pub struct Counters {
    pub contexts: u32,
    pub groups: u32,
    pub tags: u32,
}
