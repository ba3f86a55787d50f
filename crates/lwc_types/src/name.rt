/// The name of a context or of a group: the job that made it, and the number of its kind that the job had
/// made before.
#[derive(Clone, Copy, Debug, Default, PartialEq, Eq, PartialOrd, Ord)]
pub struct Name {
    pub job: u32,
    pub k: u32,
}

/// What tells one frame's bytes from another's: the job that stored them, and the number of tags that it had
/// taken before.
#[derive(Clone, Copy, Debug, PartialEq, Eq, PartialOrd, Ord)]
pub struct Tag {
    pub job: u32,
    pub k: u32,
}
