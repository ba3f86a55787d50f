ghost use Rattle.std.specs.Prelude.{◌≡◌, ◌+◌, ◌*◌, ◌<◌, ◌≤◌, ◌^◌, IfOk, length, unwrap_or};
ghost use Rattle.std.specs.Option.{option_copied};
ghost use Rattle.lwc_base.specs.Store.{byte_after, bytes_after, stored_value};
ghost use Rattle.lwc_types.specs.declared.page.PageValue.TheVariants.{Zero};
ghost use Rattle.lwc_types.specs.Pages.{bytes_of};

use lwc_base::{OutOfMemory, PAGE_BYTES, PageBytes, PageNumber, PageValue, Tag};
use std::alloc::Global;

/// The bytes that a page reads as; an absent page reads as zeros.
fn copied_bytes(alloc: Global, value: Option<&PageValue>) -> Result<PageBytes, OutOfMemory>
    ensures { IfOk result (λ page. page ≡ bytes_of (unwrap_or (option_copied value.entry) Zero)) }
{
    match value {
        Some(PageValue::Data(_, bytes)) => PageBytes::copy_of(alloc, bytes),
        _ => PageBytes::zero(alloc),
    }
}

/// The byte at an address once a piece is there.
fn byte_with(at: usize, piece: &[u8], place: usize, old: u8) -> u8
    ensures { result ≡ byte_after (record { at = at; bytes = piece.now }) place old }
{
    if at <= place && place - at < piece.len() {
        piece[place - at]
    } else {
        old
    }
}

/// Puts what a piece has of a page into the page's bytes.
fn put_piece(page: &mut PageBytes, page_number: PageNumber, at: usize, piece: &[u8])
    ensures { page.new ≡ bytes_after (record { at = at; bytes = piece.now }) page_number page.old }
{
    let count = page.as_slice().len();
    for i in 0..count {
        let old = page.as_slice()[i];
        page.put(
            i,
            byte_with(at, piece, page_number as usize * PAGE_BYTES + i, old),
        );
    }
}

/// New bytes of a page: under a new tag where it parts, and else under its own.
fn retagged(parting: bool, new: Tag, value: Option<&PageValue>, bytes: PageBytes) -> PageValue
    ensures { result ≡ stored_value parting new (unwrap_or (option_copied value.entry) Zero) bytes }
{
    match value {
        Some(PageValue::Data(tag, _)) if !parting => PageValue::Data(*tag, bytes),
        _ => PageValue::Data(new, bytes),
    }
}

/// The new value of a page that a piece touches, under a new tag if it parts. The only error is out of
/// memory.
pub fn new_value(
    alloc: Global,
    parting: bool,
    new: Tag,
    page: PageNumber,
    at: usize,
    piece: &[u8],
    old: Option<&PageValue>,
) -> Result<PageValue, OutOfMemory>
    ensures { IfOk result (λ value. value
        ≡ stored_value parting new (unwrap_or (option_copied old.entry) Zero)
        (bytes_after (record { at = at; bytes = piece.now }) page
        (bytes_of (unwrap_or (option_copied old.entry) Zero)))) }
{
    let mut bytes = copied_bytes(alloc, old)?;
    put_piece(&mut bytes, page, at, piece);
    Ok(retagged(parting, new, old, bytes))
}
