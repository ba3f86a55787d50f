/// What a context may do with a page: store to it and load from it, or load from it alone.
#[derive(Clone, Copy, Debug, Default, PartialEq, Eq)]
pub enum Right {
    #[default]
    Write,
    Read,
}
