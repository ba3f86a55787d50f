ghost use Rattle.std.specs.Prelude.{◌≡◌, ◌<◌, ◌≤◌, ◌+◌, ◌*◌, IfOk, map};
ghost use Rattle.std.specs.Int.{to_le_bytes, w64};
ghost use Rattle.std.specs.List.{range_with_len};
ghost use Rattle.guest_image.specs.Limits.{IsImage};
ghost use Rattle.lwc_gen.specs.Generated as spec;

use crate::handler::HANDLER;
use guest_image::{Form, Image, PageImage};
use guest_isa::Text;
use kernel_core::{Job, Settings};
use lwc_base::{OutOfMemory, PAGE_BYTES, PageBytes, Requests, Sequence};
use std::alloc::Global;

/// The number of pages of a generated server.
pub const PAGES: u16 = 300;

/// The number of requests for each 1 of the number that they are made from.
pub const REQUESTS_FOR_EACH: u64 = 10;

/// How a kernel serves generated requests.
pub const SETTINGS: Settings = Settings {
    frames: 324,
    budget: 10000,
    job: Job::Serve { workers: 8 },
};

/// A server and its requests, made from a number from 1 to 100. The only error is out of memory.
pub fn generate(alloc: Global, number: u32) -> Result<(Image, Requests), OutOfMemory>
    requires { (1 ≤ number) × (number ≤ 100) }
    ensures server { IfOk result (λ g. g.0 ≡ spec.server) }
    ensures image { IfOk result (λ g. IsImage g.0) }
    ensures requests { IfOk result (λ g. g.1 ≡ spec.requests_of number) }
{
    let requests = requests(alloc, u64::from(number))?;
    let image = server(alloc)?;
    Ok((image, requests))
}

/// The server. The only error is out of memory.
fn server(alloc: Global) -> Result<Image, OutOfMemory>
    ensures server { IfOk result (λ image. image ≡ spec.server) }
    ensures image { IfOk result IsImage }
{
    let entries = vec![in alloc; 0]?;
    let text = handler(alloc)?;
    let pages = numbered_pages(alloc)?;
    Ok(Image {
        form: Form::One,
        text,
        uid: 0,
        pages,
        files: Sequence::of(Vec::new(alloc)),
        slots: Sequence::of(Vec::new(alloc)),
        entries: Sequence::of(entries),
    })
}

/// The handler.
fn handler(alloc: Global) -> Result<Text, OutOfMemory>
    ensures { IfOk result (λ text. text ≡ spec.handler) }
{
    Ok(Text::of(Vec::from_slice(alloc, &HANDLER)?))
}

/// The pages, each with its number.
fn numbered_pages(alloc: Global) -> Result<Sequence<PageImage>, OutOfMemory>
    ensures { IfOk result (λ pages. pages ≡ map spec.numbered_page (range_with_len 0 PAGES)) }
{
    let mut pages = Vec::new(alloc);
    for number in 0..PAGES {
        let bytes = word_page(alloc, u64::from(number))?;
        pages.push(PageImage { number, bytes })?;
    }
    Ok(Sequence::of(pages))
}

/// A page whose first word is given, and the rest 0.
fn word_page(alloc: Global, word: u64) -> Result<PageBytes, OutOfMemory>
    ensures { IfOk result (λ page. page ≡ (spec.numbered_page word).bytes) }
{
    let mut bytes = Vec::from_slice(alloc, &word.to_le_bytes())?;
    bytes.resize(PAGE_BYTES, 0)?;
    PageBytes::from_slice(alloc, bytes.as_slice())
}

/// The requests.
fn requests(alloc: Global, number: u64) -> Result<Requests, OutOfMemory>
    requires { number ≤ 100 }
    ensures { IfOk result (λ requests. requests ≡ spec.requests_of number) }
{
    let mut requests = Vec::new(alloc);
    for r in 0..REQUESTS_FOR_EACH * number {
        let word = 1000 * number + r;
        requests.push(Sequence::of(Vec::from_slice(alloc, &word.to_le_bytes())?))?;
    }
    Ok(Sequence::of(requests))
}
