ghost use Rattle.std.specs.Prelude.{◌≡◌, ◌↔◌, ◌<◌, ◌≤◌, ◌+◌, ◌*◌, ◌%◌, ℕ, IfOk, Ok, Err, List, length};
ghost use Rattle.std.specs.List.{list_any};
ghost use Rattle.lwc_base.specs.Modes as modes;
ghost use Rattle.lwc_base.specs.Modes.{IsSpec};
ghost use Rattle.lwc_base.specs.declared.item.Item.{Item};
ghost use Rattle.lwc_types.specs.declared.limits.TheConstants.{MOST_ITEMS, MOST_PAGES};
ghost use Rattle.res_spec.specs.declared.items.SpecCall as calls;
ghost use Rattle.res_spec.specs.declared.items.SpecFault.TheVariants.{BadMode, BadRange, Overlap};
ghost use Rattle.res_spec.specs.Items as spec;
ghost use Rattle.res_spec.specs.Items.{read};
ghost use Rattle.res_spec.specs.Spelling.{Spells, IsBadMode, IsBadRange, IsOverlap};

use arrayvec::ArrayVec;
use byteorder::{ByteOrder, LittleEndian};
use lwc_base::{Item, Items, Kind, MOST_ITEMS, Mode, PageNumber, SLOTS};

/// The number of bytes of an item: its kind, its mode, and the numbers from and to, each of four bytes, the
/// lowest first.
pub const ITEM_BYTES: usize = 16;

/// The calls that take a specifier.
#[derive(Clone, Copy, PartialEq, Eq)]
pub enum SpecCall {
    Create,
    Restrict,
    Overlay,
}

/// Why items are refused.
#[derive(Clone, Copy, Debug, PartialEq, Eq)]
pub enum SpecFault {
    /// An item's kind or mode is not one that the call takes.
    BadMode,
    /// An item names no key, or one past the limit of its kind.
    BadRange,
    /// Two items have a key in common.
    Overlap,
}

/// The items that bytes spell for a call, in a world of this number of pages.
///
/// # Errors
///
/// `BadMode`, `BadRange`, `Overlap`, in this order, each tested over all items before the next.
pub fn read_items(bytes: &[u8], call: SpecCall, pages: PageNumber) -> Result<Items, SpecFault>
    requires items { length bytes.now % ITEM_BYTES ≡ 0 }
    requires few { length bytes.now ≤ MOST_ITEMS * ITEM_BYTES }
    requires pages { pages ≤ MOST_PAGES }
    ensures read { read call pages bytes.now ≡ result }
    ensures valid { IfOk result (λ spec. IsSpec pages spec) }
    ensures found { IfOk result (λ spec. Spells call spec bytes.now) }
    ensures only { (items : List Item) → Spells call items bytes.now → IsSpec pages items
        → result ≡ Ok items }
    // No items of kinds and modes that the call takes are spelled so.
    ensures bad_mode { (result ≡ Err BadMode) ↔ IsBadMode call bytes.now }
    // Items are spelled, and not each of them names a key and none past the limit of its kind.
    ensures bad_range { (result ≡ Err BadRange) ↔ IsBadRange call pages bytes.now }
    // Such items are spelled, and not every two of them are apart.
    ensures overlap { (result ≡ Err Overlap) ↔ IsOverlap call pages bytes.now }
{
    test_items(bytes, call, pages)
}

/// The items that are read are a specifier.
#[tactic(auto, using(crate::proofs::ValidItems::read_spec))]
pub fn items_that_are_read_are_a_spec()
    ensures { (call : calls.SpecCall) (pages : ℕ) (bytes : List ℕ) (items : List Item) →
        length bytes ≤ MOST_ITEMS * ITEM_BYTES → read call pages bytes ≡ Ok items → IsSpec pages items }
{}

/// The items that bytes spell, tested in the order of the faults.
#[tactic(auto, unfolding(crate::specs::Items::faults, crate::specs::Items::read))]
fn test_items(bytes: &[u8], call: SpecCall, pages: PageNumber) -> Result<Items, SpecFault>
    requires few { length bytes.now ≤ MOST_ITEMS * ITEM_BYTES }
    requires pages { pages ≤ MOST_PAGES }
    ensures read { read call pages bytes.now ≡ result }
    ensures valid { IfOk result (λ spec. IsSpec pages spec) }
{
    let read = items_in(call, bytes);
    let items = read.as_slice();
    if !all_taken(call, bytes) {
        return Err(SpecFault::BadMode);
    }
    if !all_within(pages, items) {
        return Err(SpecFault::BadRange);
    }
    if has_overlap(items) {
        return Err(SpecFault::Overlap);
    }
    Ok(spec_of(items))
}

/// The number of four bytes at an offset, the lowest first.
fn number_at(bytes: &[u8], at: usize) -> u32
    requires { at + 4 ≤ length bytes.now }
    ensures { result ≡ spec.number_at bytes.now at }
{
    LittleEndian::read_u32(&bytes[at..])
}

/// The kind of a number.
fn kind_of_number(number: u32) -> Option<Kind>
    ensures { result ≡ spec.kind_of_number number }
{
    match number {
        0 => Some(Kind::Page),
        1 => Some(Kind::Slot),
        2 => Some(Kind::Cred),
        _ => None,
    }
}

/// The mode of a number.
fn mode_of_number(number: u32) -> Option<Mode>
    ensures { result ≡ spec.mode_of_number number }
{
    match number {
        0 => Some(Mode::Copy),
        1 => Some(Mode::Share),
        2 => Some(Mode::Unmap),
        3 => Some(Mode::CopyRead),
        _ => None,
    }
}

/// Whether keys of a kind may have a mode: only pages are copied read-only.
fn suits(kind: Kind, mode: Mode) -> bool
    ensures { result ≡ spec.suits kind mode }
{
    mode != Mode::CopyRead || kind == Kind::Page
}

/// Whether a call takes a mode for keys of a kind.
fn takes(call: SpecCall, kind: Kind, mode: Mode) -> bool
    ensures { result ≡ spec.takes call kind mode }
{
    suits(kind, mode) && takes_mode(call, mode)
}

/// Whether a call takes a mode.
fn takes_mode(call: SpecCall, mode: Mode) -> bool
    ensures { result ≡ spec.takes_mode call mode }
{
    match call {
        SpecCall::Create => true,
        SpecCall::Overlay => mode != Mode::Unmap,
        SpecCall::Restrict => mode == Mode::Copy,
    }
}

/// The item that is spelled at an offset; `None` where the call does not take its kind and its mode.
fn item_at(call: SpecCall, bytes: &[u8], at: usize) -> Option<Item>
    requires { at + ITEM_BYTES ≤ length bytes.now }
    ensures { result ≡ spec.item_of call (spec.spelled_at bytes.now at) }
{
    let kind = kind_of_number(number_at(bytes, at))?;
    let mode = mode_of_number(number_at(bytes, at + 4)).filter(|mode| takes(call, kind, *mode))?;
    Some(Item {
        kind,
        mode,
        from: number_at(bytes, at + 8),
        to: number_at(bytes, at + 12),
    })
}

/// Whether the call takes the kind and the mode of each item that is spelled.
fn all_taken(call: SpecCall, bytes: &[u8]) -> bool
    ensures { result ≡ spec.all_taken call bytes.now }
{
    (0..bytes.len() / ITEM_BYTES).all(|i| item_at(call, bytes, i * ITEM_BYTES).is_some())
}

/// The number of keys of a kind.
fn limit(pages: PageNumber, kind: Kind) -> u32
    ensures { result ≡ modes.limit pages kind }
{
    match kind {
        Kind::Page => u32::from(pages),
        Kind::Slot => u32::from(SLOTS),
        Kind::Cred => 1,
    }
}

/// Whether each item names at least one key, and none past the limit of its kind.
#[tactic(auto, unfolding(crate::specs::Items::all_within))]
fn all_within(pages: PageNumber, items: &[Item]) -> bool
    ensures { result ≡ spec.all_within pages items.now }
{
    items.iter().all(|item| item.from < item.to && item.to <= limit(pages, item.kind))
}

/// Whether two items have a key in common.
fn overlaps(one: &Item, other: &Item) -> bool
    ensures { result ≡ modes.overlaps one.now other.now }
{
    one.kind == other.kind && one.from < other.to && other.from < one.to
}

/// Whether one of the others has a key in common with an item.
fn overlaps_another(item: &Item, others: &[Item]) -> bool
    ensures { result ≡ list_any (modes.overlaps item.now) others.now }
{
    others.iter().any(|other| overlaps(item, other))
}

/// Whether two of the items have a key in common.
fn has_overlap(items: &[Item]) -> bool
    ensures { result ≡ spec.has_overlap items.now }
{
    match items {
        [] => false,
        [item, others @ ..] => overlaps_another(item, others) || has_overlap(others),
    }
}

/// The items that are spelled and that the call takes.
#[tactic(auto, unfolding(crate::specs::Items::spelled, crate::specs::Items::items_in))]
fn items_in(call: SpecCall, bytes: &[u8]) -> ArrayVec<Item, MOST_ITEMS>
    requires few { length bytes.now ≤ MOST_ITEMS * ITEM_BYTES }
    ensures { result.items ≡ spec.items_in call bytes.now }
{
    let mut items = ArrayVec::new();
    for i in 0..bytes.len() / ITEM_BYTES {
        if let Some(item) = item_at(call, bytes, i * ITEM_BYTES) {
            items.push(item);
        }
    }
    items
}

/// The specifier of these items.
fn spec_of(items: &[Item]) -> Items
    requires few { length items.now ≤ MOST_ITEMS }
    requires valid { IsSpec MOST_PAGES items.now }
    ensures { result ≡ items.now }
{
    let mut spec = Items::empty();
    for item in items {
        spec.push(*item);
    }
    spec
}
