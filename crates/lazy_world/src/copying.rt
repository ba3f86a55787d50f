ghost use Rattle.std.specs.Prelude.{◌≡◌, ◌≢◌, ◌<◌, ◌≤◌, ◌+◌, ℕ, false, min, true};
ghost use Rattle.std.specs.List.{list_any};
ghost use Rattle.lwc_base.specs.declared.cell.Cell.TheVariants.{Own};
ghost use Rattle.lwc_base.specs.declared.descriptor.Descriptor.TheVariants.{Empty};
ghost use Rattle.lwc_types.specs.declared.key.TheConstants.{SLOTS};
ghost use Rattle.lwc_types.specs.declared.key.Key.TheVariants.{Page, Slot, Cred};
ghost use Rattle.lwc_types.specs.declared.limits.TheConstants.{MOST_PAGES};
ghost use Rattle.range_map.specs.Kinds.{ranges};
ghost use Rattle.lwc_types.specs.declared.right.Right.{Right};
ghost use Rattle.lazy_world.specs.Cells.{HasNoPages, HasOwnPages, Row, is_own, put_rights, put_row};
ghost use Rattle.lazy_world.specs.Cells.{is_common, states_of};
ghost use Rattle.lazy_world.specs.Transfers.{transferred_rights, transferred_row};
ghost use Rattle.lazy_world.specs.Seen.{count, frame_count, free_frames, free_nodes, node_steps, pool, rights, rows};

use crate::places::Places;
use crate::transfer::Transfer;
use crate::world::PlacedWorld;
use cow_space::Origin;
use lwc_base::{Cell, Items};
use range_map::{Segment, SegmentKind};

/// Whether a segment is of pages that are common.
fn has_common(segments: &[Segment]) -> bool
    ensures { result ≡ list_any (λ s. is_common s.kind) segments.now }
{
    segments
        .iter()
        .any(|segment| matches!(segment.kind, SegmentKind::Common(_)))
}

impl Places {
    /// Gives a place without slots all that another one has, by holds alone. Where it has no pages either,
    /// that takes no frame and one node step, and none if the other one has no pages.
    pub fn copy_place(&mut self, to: usize, from: usize)
        requires to { to < count self.old }
        requires from { from < count self.old }
        requires apart { from ≢ to }
        requires empty { (n : ℕ) → rows self.old to (Slot n) ≡ Own Empty }
        ensures rows { rows self.new ≡ put_row (rows self.old) to (rows self.old from) }
        ensures rights { rights self.new ≡ put_rights (rights self.old) to (rights self.old from) }
        ensures count { count self.new ≡ count self.old }
        ensures frames { frame_count self.new ≡ frame_count self.old }
        ensures nodes { free_nodes self.old ≤ free_nodes self.new }
        ensures free_empty { HasNoPages (rows self.old to) → free_frames self.new ≡ free_frames self.old }
        ensures pool { pool self.new ≡ pool self.old }
        ensures cost { HasNoPages (rows self.old to)
            → node_steps self.new ≤ node_steps self.old
            + min 1 (ranges MOST_PAGES (states_of (rows self.old from) (rights self.old from))) }
    {
        let uid = self.given_uid(Origin::CopyOf(from));
        self.copy_pages(to, from);
        self.slots.clone_place(to, from);
        self.uids[to] = uid;
    }

    /// Whether no slot of a place is filled.
    fn has_no_slot(&self, place: usize) -> bool
        requires { place < count self.now }
        ensures { result ≡ true → (n : ℕ) → n < SLOTS → rows self.now place (Slot n) ≡ Own Empty }
    {
        self.filled(place) == 0
    }

    /// Whether no slot of a place is common.
    fn has_own_slots(&self, place: usize) -> bool
        requires { place < count self.now }
        ensures { result ≡ true → (n : ℕ) → n < SLOTS → is_own (rows self.now place (Slot n)) ≡ true }
    {
        self.common(place) == 0
    }

    /// Whether no page of a place is common.
    pub(crate) fn has_own_pages(&self, place: usize) -> bool
        requires { place < count self.now }
        ensures own { result ≡ true → (p : ℕ) → p < MOST_PAGES
            → is_own (rows self.now place (Page p)) ≡ true }
        ensures all { HasOwnPages (rows self.now place) → result ≡ true }
    {
        !has_common(self.pages.segments(place))
    }

    /// Whether the credential of a place is its own.
    fn has_own_uid(&self, place: usize) -> bool
        requires { place < count self.now }
        ensures { result ≡ is_own (rows self.now place Cred) }
    {
        matches!(self.uid(place), Cell::Own(_))
    }

    /// Whether each cell of a place is its own.
    fn is_all_own(&self, place: usize) -> bool
        requires { place < count self.now }
        ensures slots { result ≡ true → (n : ℕ) → n < SLOTS → is_own (rows self.now place (Slot n)) ≡ true }
        ensures uid { result ≡ true → is_own (rows self.now place Cred) ≡ true }
        ensures pages { result ≡ true → (p : ℕ) → p < MOST_PAGES
            → is_own (rows self.now place (Page p)) ≡ true }
    {
        self.has_own_slots(place) && self.has_own_uid(place) && self.has_own_pages(place)
    }
}

impl PlacedWorld {
    ghost use Rattle.lazy_world.specs.Worlds.{seen};

    /// Whether a transfer gives all that a place has, as it is there: it makes a clone, no item names a key, and
    /// what is copied is the place's own.
    pub(crate) fn gives_same(&self, transfer: Transfer, spec: &Items, from: usize) -> bool
        requires { from < count self.now.places }
        ensures row { result ≡ true → (old : Row)
            → transferred_row (seen self.now) transfer spec.now (rows self.now.places from) old
            ≡ rows self.now.places from }
        ensures rights { result ≡ true → (old : ℕ → Right)
            → transferred_rights transfer spec.now (rows self.now.places from) (rights self.now.places from)
            old ≡ rights self.now.places from }
    {
        match transfer {
            Transfer::Clone(_) => spec.items().is_empty() && self.places.is_all_own(from),
            Transfer::Mark(_) | Transfer::Move | Transfer::Overlay(_) => false,
        }
    }

    /// Whether what a transfer gives the place `to` can be copied whole.
    pub(crate) fn can_copy(&self, transfer: Transfer, spec: &Items, from: usize, to: usize) -> bool
        requires from { from < count self.now.places }
        requires to { to < count self.now.places }
        ensures apart { result ≡ true → from ≢ to }
        ensures empty { result ≡ true → (n : ℕ) → rows self.now.places to (Slot n) ≡ Own Empty }
        ensures row { result ≡ true → (old : Row)
            → transferred_row (seen self.now) transfer spec.now (rows self.now.places from) old
            ≡ rows self.now.places from }
        ensures rights { result ≡ true → (old : ℕ → Right)
            → transferred_rights transfer spec.now (rows self.now.places from) (rights self.now.places from)
            old ≡ rights self.now.places from }
    {
        from != to && self.places.has_no_slot(to) && self.gives_same(transfer, spec, from)
    }
}
