ghost use Rattle.std.specs.Prelude.{◌≡◌, ℕ, ◌<◌, List, length, IfOk, slice_set};
ghost use Rattle.lwc_types.specs.declared.page.TheConstants.{PAGE_BYTES};
ghost use Rattle.lwc_types.specs.Pages.{zero_bytes, zero_page};

use crate::memory::OutOfMemory;
use crate::name::Tag;
use std::alloc::Global;
use std::marker::Model;

/// The number of bytes of a page.
pub const PAGE_BYTES: usize = 4096;

/// The bytes of one page, seen as a list of 4096 numbers.
#[derive(Drop)]
pub struct PageBytes {
    bytes: Vec<u8>,
}

impl Model for PageBytes {
    ghost use Rattle.std.specs.Prelude.{◌≡◌, ℕ, List, length};
    ghost use Rattle.lwc_types.specs.declared.page.TheConstants.{PAGE_BYTES};

    ghost Value = { List ℕ };

    ghost view = { λ page. page.bytes.items };

    ghost invariant = { λ page. length page.bytes.items ≡ PAGE_BYTES };
}

#[tactic(auto, unfolding(crate::specs::Pages::zero_bytes))]
fn zeros(alloc: Global, count: usize) -> Result<Vec<u8>, OutOfMemory>
    ensures zeros { IfOk result (λ bytes. bytes.items ≡ zero_bytes count) }
    ensures whole { IfOk result (λ bytes. length bytes.items ≡ count) }
{
    Ok(vec![in alloc; 0; count]?)
}

impl PageBytes {
    #[tactic(auto, unfolding(crate::specs::Pages::zero_page))]
    /// A page of zero bytes. The only error is out of memory.
    pub fn zero(alloc: Global) -> Result<PageBytes, OutOfMemory>
        ensures { IfOk result (λ page. page ≡ zero_page) }
    {
        Ok(PageBytes {
            bytes: zeros(alloc, PAGE_BYTES)?,
        })
    }

    /// A page of these bytes, which are copied. The only error is out of memory.
    pub fn from_slice(alloc: Global, bytes: &[u8]) -> Result<PageBytes, OutOfMemory>
        requires { length bytes.now ≡ PAGE_BYTES }
        ensures { IfOk result (λ page. page ≡ bytes.now) }
    {
        Ok(PageBytes {
            bytes: Vec::from_slice(alloc, bytes)?,
        })
    }

    /// A copy of a page's bytes. The only error is out of memory.
    pub fn copy_of(alloc: Global, page: &PageBytes) -> Result<PageBytes, OutOfMemory>
        ensures { IfOk result (λ copy. copy ≡ page.now) }
    {
        PageBytes::from_slice(alloc, page.as_slice())
    }

    /// The bytes, in order.
    pub fn as_slice(&self) -> &[u8]
        ensures bytes { result.now ≡ self.now }
        ensures whole { length self.now ≡ PAGE_BYTES }
    {
        self.bytes.as_slice()
    }

    /// Puts a byte at one place of the page.
    pub fn put(&mut self, at: usize, byte: u8)
        requires { at < PAGE_BYTES }
        ensures { self.new ≡ slice_set self.old at byte }
    {
        self.bytes[at] = byte;
    }
}

/// What a page has: zeros, which need no frame, or the bytes of a frame under its tag.
#[derive(Drop)]
pub enum PageValue {
    Zero,
    Data(Tag, PageBytes),
}
