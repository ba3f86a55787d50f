ghost use Rattle.std.specs.Prelude.{◌≡◌, ◌≤◌, nat_lt};
ghost use Rattle.std.specs.List.{list_any};
ghost use Rattle.access_cap.specs.Kinds.{has_kinds, is_chosen};
ghost use Rattle.lwc_base.specs.Capabilities as caps;
ghost use Rattle.lwc_base.specs.Capabilities.{restricted};
ghost use Rattle.lwc_base.specs.Lending.{descriptor_of, keys_of};
ghost use Rattle.lwc_base.specs.Modes as modes;
ghost use Rattle.lwc_base.specs.Modes.{kind_of};
ghost use Rattle.lwc_base.specs.Sharing.{any_key};
ghost use Rattle.lwc_types.specs.declared.limits.TheConstants.{MOST_PAGES};

use crate::kinds::{Mask, covers_kinds};
use crate::sets::{covers, meet};
use crate::whole::{empty, full};
use lwc_base::{Cap, Descriptor, Grant, Item, Items, Kind, Lent, PageNumber, SLOTS};

/// The capability of lent keys.
pub fn owned_keys(keys: Grant<'_>) -> Cap
    ensures { result ≡ keys_of keys.entry }
{
    match keys {
        Grant::All { pages } => full(pages),
        Grant::None => empty(),
        Grant::Of(cap) => *cap,
    }
}

/// The descriptor that a lent one stands for.
pub fn owned(lent: Lent<'_>) -> Descriptor
    ensures { result ≡ descriptor_of lent.entry }
{
    match lent {
        Lent::Empty => Descriptor::Empty,
        Lent::Console => Descriptor::Console,
        Lent::File { file, at } => Descriptor::File { file, at },
        Lent::Request { r, at } => Descriptor::Request { r, at },
        Lent::Reply { r } => Descriptor::Reply { r },
        Lent::Ctx { name, keys } => Descriptor::Ctx {
            name,
            cap: owned_keys(keys),
        },
    }
}

/// `meet` of lent keys.
pub fn meet_granted(keys: Grant<'_>, spec: &Items) -> Cap
    ensures { result ≡ restricted (keys_of keys.entry) spec.now }
{
    match keys {
        Grant::All { pages } => meet(&full(pages), spec),
        Grant::None => meet(&empty(), spec),
        Grant::Of(cap) => meet(cap, spec),
    }
}

/// `covers` of lent keys. Where they are all keys or none, no capability is made.
pub fn grants(keys: Grant<'_>, spec: &Items, pages: PageNumber) -> bool
    requires { pages ≤ MOST_PAGES }
    ensures { result ≡ caps.covers pages (keys_of keys.entry) spec.now }
{
    match keys {
        Grant::All { pages: all } => all >= pages || covers(&full(all), spec, pages),
        Grant::None => !names_any(spec.items(), pages),
        Grant::Of(cap) => covers(cap, spec, pages),
    }
}

/// `covers_kinds` of lent keys. Where they are all keys or none, no capability is made.
pub fn grants_kinds(keys: Grant<'_>, mask: Mask, pages: PageNumber) -> bool
    requires { pages ≤ MOST_PAGES }
    ensures { result ≡ has_kinds pages (keys_of keys.entry) mask.0 }
{
    match keys {
        Grant::All { pages: all } => all >= pages || covers_kinds(&full(all), mask, pages),
        Grant::None => !chooses_any(mask, pages),
        Grant::Of(cap) => covers_kinds(cap, mask, pages),
    }
}

/// Whether a mask chooses a key of a context with this number of pages.
fn chooses_any(mask: Mask, pages: PageNumber) -> bool
    ensures { result ≡ any_key pages (λ k. is_chosen mask.0 (kind_of k)) }
{
    ((pages > 0) & mask.chooses(Kind::Page)) | mask.chooses(Kind::Slot) | mask.chooses(Kind::Cred)
}

/// Whether items name a key of a context with this number of pages: one begins below the limit of its kind.
fn names_any(items: &[Item], pages: PageNumber) -> bool
    ensures { result ≡ list_any (λ item. nat_lt item.from (modes.limit pages item.kind)) items.now }
{
    items.iter().any(|item| item.from < limit(pages, item.kind))
}

/// The number of keys of a kind.
fn limit(pages: PageNumber, kind: Kind) -> u32
    ensures { result ≡ modes.limit pages kind }
{
    match kind {
        Kind::Page => u32::from(pages),
        Kind::Slot => u32::from(SLOTS),
        Kind::Cred => 1,
    }
}
