//! The pages of a context, as those of an image.

ghost use Rattle.std.specs.Prelude.{◌≡◌, ◌<◌, IfOk, length};
ghost use Rattle.world_face.specs.Calls.{IsLive};
ghost use Rattle.guest_image.specs.Limits.{page_numbers};
ghost use Rattle.guest_image.specs.Numbers as numbers;
ghost use Rattle.guest_image.specs.Numbers.{ranges};
ghost use Rattle.lwc_session.specs.Pages as spec;

use guest_image::PageImage;
use lwc_base::{MOST_RANGES, Name, OutOfMemory, PAGE_BYTES, PageBytes, PageNumber};
use std::alloc::Global;
use world_face::World;

/// The pages of a context, in the order of their numbers. The only error is out of memory.
#[tactic(auto, using(crate::proofs::PageLists::one_more, crate::proofs::PageLists::none_more), unfolding(crate::specs::Pages::pages_in))]
pub(crate) fn pages_in<W: World>(
    alloc: Global,
    world: &W,
    context: Name,
) -> Result<Vec<PageImage>, OutOfMemory>
    requires { IsLive (W.seen world.now) context }
    ensures { IfOk result (λ pages. pages.items ≡ spec.pages_in (W.seen world.now) context) }
{
    let mut pages = Vec::new(alloc);
    let mut bytes = [0; PAGE_BYTES];
    'pages: for number in 0..world.pages() {
        if let Some(page) = page_at(alloc, world, context, number, &mut bytes)? {
            pages.push(page)?;
        }
    }
    Ok(pages)
}

/// The page of a number in a context, which is read into `bytes`; `None` if it is absent. The only error is out of
/// memory.
fn page_at<W: World>(
    alloc: Global,
    world: &W,
    context: Name,
    number: PageNumber,
    bytes: &mut [u8; PAGE_BYTES],
) -> Result<Option<PageImage>, OutOfMemory>
    requires live { IsLive (W.seen world.now) context }
    requires within { number < (W.seen world.now).size.pages }
    ensures { IfOk result (λ page. page ≡ spec.page_at (W.seen world.now) context number) }
{
    if !world.bytes(context, u32::from(number) * PAGE_BYTES as u32, bytes) {
        return Ok(None);
    }
    let bytes = PageBytes::from_slice(alloc, bytes)?;
    Ok(Some(PageImage { number, bytes }))
}

/// Whether pages are in few enough ranges for an image, and no more than the frames.
pub(crate) fn are_fitting(pages: &[PageImage], frames: u32) -> bool
    ensures { result ≡ spec.are_fitting frames pages.now }
{
    pages.len() <= frames as usize && range_count(pages) <= MOST_RANGES as usize
}

/// The number of ranges that the pages' numbers make.
fn range_count(pages: &[PageImage]) -> usize
    ensures { result ≡ ranges (page_numbers pages.now) }
{
    let mut count = 0;
    let mut before = None;
    'pages: for i in 0..pages.len() {
        let number = pages[i].number;
        if begins(before, number) {
            count += 1;
        }
        before = Some(number);
    }
    count
}

/// Whether a number begins a range: it does not come directly after the number before it.
fn begins(before: Option<PageNumber>, number: PageNumber) -> bool
    ensures { result ≡ numbers.begins before number }
{
    match before {
        None => true,
        Some(last) => u32::from(number) != u32::from(last) + 1,
    }
}
