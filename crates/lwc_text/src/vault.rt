//! Vault files: where a vault is entered, and its pages.

ghost use Rattle.std.specs.Prelude.{◌≡◌, ◌≤◌, ◌+◌, None, Some, IfErr, IfOk, drop, length};
ghost use Rattle.guest_image.specs.declared.image.TheConstants.{MOST_VAULT_PAGES};
ghost use Rattle.guest_image.specs.declared.image.Vault as vaults;
ghost use Rattle.guest_image.specs.Numbers.{is_above};
ghost use Rattle.lwc_types.specs.Outcomes.{Answers};
ghost use Rattle.lwc_types.specs.declared.limits.TheConstants.{MOST_PAGES};
ghost use Rattle.lwc_types.specs.declared.reading.ReadError.TheVariants.{OutOfMemory};
ghost use Rattle.lwc_text.specs.VaultFiles as spec;

use crate::fault::{InputFault, InputRule};
use guest_image::{MOST_VAULT_PAGES, PageImage, Vault};
use lwc_base::{PAGE_BYTES, PageBytes, PageNumber, ReadError, Sequence};
use std::alloc::Global;

/// The number of bytes of a number.
const NUMBER_BYTES: usize = 4;

/// The number of bytes of a page with its number.
const NUMBERED_PAGE_BYTES: usize = NUMBER_BYTES + PAGE_BYTES;

/// The most bytes that a vault file may have.
pub const MOST_VAULT_BYTES: usize = NUMBER_BYTES + MOST_VAULT_PAGES as usize * NUMBERED_PAGE_BYTES;

/// Reads a vault for a text of this length and contexts of this number of pages: an entry, and 1 to 64 pages
/// in rising order (`IsVaultFile`).
///
/// # Errors
///
/// Out of memory, or the first refusal (`vault_at`): `TooLong` at `MOST_VAULT_BYTES` if there are more bytes;
/// else, in file order and each field once it is whole, `Truncated` at the file's length if it ends inside a
/// field or before the first page, `BadEntry` at 0 if the entry is not below the length of the text, or
/// `BadPage` at a page's number that is not below the number of pages, or not above the one before it.
#[tactic(auto)]
pub fn read_vault(
    alloc: Global,
    bytes: &[u8],
    instructions: u32,
    pages: PageNumber,
) -> Result<Vault, InputFault>
    requires { pages ≤ MOST_PAGES }
    ensures exact { Answers (λ vault. vault) result (spec.vault_at instructions pages bytes.now) }
    ensures found { IfOk result (λ vault. spec.IsVaultFile instructions pages bytes.now vault) }
    ensures only { (vault : vaults.Vault) → spec.IsVaultFile instructions pages bytes.now vault
        → IfErr result (λ e. e ≡ OutOfMemory) }
{
    read_limited(alloc, bytes, instructions, pages)
}

/// Reads a vault that may be too long.
#[tactic(auto, unfolding(crate::specs::VaultFiles::vault_at))]
fn read_limited(
    alloc: Global,
    bytes: &[u8],
    instructions: u32,
    pages: PageNumber,
) -> Result<Vault, InputFault>
    requires { pages ≤ MOST_PAGES }
    ensures { Answers (λ vault. vault) result (spec.vault_at instructions pages bytes.now) }
{
    if bytes.len() > MOST_VAULT_BYTES {
        return Err(ReadError::Refused {
            rule: InputRule::TooLong,
            at: MOST_VAULT_BYTES as u64,
        });
    }
    if bytes.len() < NUMBER_BYTES {
        return Err(ReadError::Refused {
            rule: InputRule::Truncated,
            at: bytes.len() as u64,
        });
    }
    let entry = number_in(bytes);
    if entry >= instructions {
        return Err(ReadError::Refused {
            rule: InputRule::BadEntry,
            at: 0,
        });
    }
    let pages = read_pages(alloc, &bytes[NUMBER_BYTES..], pages)?;
    Ok(Vault { entry, pages })
}

/// Reads the pages that follow the entry.
fn read_pages(
    alloc: Global,
    bytes: &[u8],
    pages: PageNumber,
) -> Result<Sequence<PageImage>, InputFault>
    requires few { pages ≤ MOST_PAGES }
    requires short { length bytes.now + NUMBER_BYTES ≤ MOST_VAULT_BYTES }
    ensures { Answers (λ read. read) result
        (spec.pages_at MOST_VAULT_PAGES pages None NUMBER_BYTES bytes.now) }
{
    let mut read = Vec::new(alloc);
    let mut last = None;
    let mut rest = bytes;
    'pages: loop {
        let at = (NUMBER_BYTES + bytes.len() - rest.len()) as u64;
        let page = read_page(alloc, rest, at, last, pages)?;
        last = Some(page.number);
        read.push(page)?;
        let (_, after) = rest.split_at(NUMBERED_PAGE_BYTES);
        if after.is_empty() {
            return Ok(Sequence::of(read));
        }
        rest = after;
    }
}

/// Reads the page at an offset, after one with this number.
#[tactic(auto, unfolding(crate::specs::VaultFiles::page_at))]
fn read_page(
    alloc: Global,
    rest: &[u8],
    at: u64,
    last: Option<PageNumber>,
    pages: PageNumber,
) -> Result<PageImage, InputFault>
    requires few { pages ≤ MOST_PAGES }
    requires short { at + length rest.now ≤ MOST_VAULT_BYTES }
    ensures read { Answers (λ page. page) result (spec.page_at pages last at rest.now) }
    ensures whole { IfOk result (λ page. NUMBERED_PAGE_BYTES ≤ length rest.now) }
{
    if rest.len() < NUMBER_BYTES {
        return Err(ReadError::Refused {
            rule: InputRule::Truncated,
            at: at + rest.len() as u64,
        });
    }
    let number = number_in(rest);
    if number >= u32::from(pages) || !is_above(last, number) {
        return Err(ReadError::Refused {
            rule: InputRule::BadPage,
            at,
        });
    }
    if rest.len() < NUMBERED_PAGE_BYTES {
        return Err(ReadError::Refused {
            rule: InputRule::Truncated,
            at: at + rest.len() as u64,
        });
    }
    let bytes = PageBytes::from_slice(alloc, &rest[NUMBER_BYTES..NUMBERED_PAGE_BYTES])?;
    Ok(PageImage {
        number: number as PageNumber,
        bytes,
    })
}

/// Whether a number is above the one before it.
fn is_above(last: Option<PageNumber>, number: u32) -> bool
    ensures { result ≡ is_above last number }
{
    match last {
        None => true,
        Some(last) => u32::from(last) < number,
    }
}

/// The number at the beginning of bytes.
fn number_in(bytes: &[u8]) -> u32
    requires { NUMBER_BYTES ≤ length bytes.now }
    ensures { result ≡ spec.number_in bytes.now }
{
    u32::from_le_bytes([bytes[0], bytes[1], bytes[2], bytes[3]])
}
