ghost use Rattle.std.specs.Prelude.{◌≡◌, ℕ, ◌+◌, ◌^◌, ◌<◌};
ghost use Rattle.page_tree.specs.Pages.{cell_of, entry_for};

use frame_pool::FrameNo;

/// What a tree has for a page: nothing, a page of zeros, which needs no frame, or a frame.
#[derive(Clone, Copy, Debug, PartialEq, Eq)]
pub enum PageCell {
    Absent,
    Zero,
    Frame(FrameNo),
}

/// The cell that an entry of a leaf stands for.
pub(crate) fn cell_from(entry: u32) -> PageCell
    ensures cell { result ≡ cell_of entry }
    ensures entry { entry_for result ≡ entry }
{
    match entry {
        0 => PageCell::Absent,
        1 => PageCell::Zero,
        named => PageCell::Frame(FrameNo { n: named - 2 }),
    }
}

/// The entry of a leaf that stands for a cell.
pub(crate) fn entry_from(cell: PageCell) -> u32
    requires { entry_for cell < 2 ^ 32 }
    ensures { result ≡ entry_for cell }
{
    match cell {
        PageCell::Absent => 0,
        PageCell::Zero => 1,
        PageCell::Frame(frame) => frame.n + 2,
    }
}
