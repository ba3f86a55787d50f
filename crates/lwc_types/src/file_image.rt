use crate::sequence::Sequence;

/// A file of an image: the uid of its owner, whether others may open it, and its bytes.
#[derive(Drop)]
pub struct FileImage {
    pub owner: u32,
    pub public: bool,
    pub bytes: Sequence<u8>,
}
