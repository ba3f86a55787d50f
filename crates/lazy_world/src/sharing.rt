ghost use Rattle.std.specs.Prelude.{◌≡◌, ◌<◌, ◌≤◌, ◌+◌, ◌^◌, ℕ, Some, false, true};
ghost use Rattle.lwc_base.specs.declared.item.Mode.TheVariants.{Share};
ghost use Rattle.lwc_base.specs.declared.cell.Cell.{Cell};
ghost use Rattle.lwc_base.specs.Keys.{ValueOf};
ghost use Rattle.lwc_base.specs.Modes.{IsItem, IsSpec, mode, names};
ghost use Rattle.lwc_base.specs.Sharing.{has_own};
ghost use Rattle.lwc_types.specs.declared.right.Right.{Right};
ghost use Rattle.range_map.specs.Kinds.{kind_of, state_of};
ghost use Rattle.lwc_types.specs.declared.key.TheConstants.{SLOTS};
ghost use Rattle.lwc_types.specs.declared.key.Key.{Key};
ghost use Rattle.lwc_types.specs.declared.key.Key.TheVariants.{Page, Slot, Cred};
ghost use Rattle.lwc_types.specs.declared.limits.TheConstants.{MOST_PAGES, MOST_RANGES};
ghost use Rattle.lazy_world.specs.Transfers.{moves};

use crate::pieces::Origins;
use crate::transfer::Transfer;
use crate::world::PlacedWorld;
use item_modes::{is_share, names_slots, shares_nothing};
use lwc_base::{Cell, Counters, Item, Items, Key, NOBODY, Name, PageNumber, Range, SLOTS};
use range_map::{PageState, SegmentKind};
use res_spec::mode_of;

/// Whether a state is one of a page that is the context's own.
fn is_of_own(state: Option<PageState>) -> bool
    ensures { (p : ℕ) (cell : Cell (ValueOf (Page p))) (right : Right)
        → state ≡ state_of (kind_of cell) right → result ≡ has_own (Page p) cell }
{
    match state {
        Some(state) => match state.kind {
            SegmentKind::Own => true,
            SegmentKind::Common(_) => false,
        },
        None => false,
    }
}

impl PlacedWorld {
    ghost use Rattle.lwc_base.specs.Sharing.{moved_values, needs_group, share};
    ghost use Rattle.lwc_base.specs.World.{add_group, change_group, context, group, new_group, next_group};
    ghost use Rattle.range_map.specs.Kinds.{ranges};
    ghost use Rattle.lwc_base.specs.Fresh.{IsFresh};
    ghost use Rattle.lwc_base.specs.Ranges.{ranges_of};
    ghost use Rattle.world_face.specs.Calls.{HasGroupPlace, IsLive, MayName};
    ghost use Rattle.cow_space.specs.Cells.{all_write};
    ghost use Rattle.lazy_world.specs.Cells.{no_row, states_of};
    ghost use Rattle.lazy_world.specs.Transfers.{transferred_rights, transferred_row};
    ghost use Rattle.lazy_world.specs.declared.transfer.Transfer.TheVariants.{Move};
    ghost use Rattle.lazy_world.specs.Followed.{IsOfContexts, IsReady, followed};
    ghost use Rattle.lazy_world.specs.Clones.{change_nodes, change_steps, fill_nodes, fill_steps};
    ghost use Rattle.lazy_world.specs.Costs.{TakesNodes, pieces};
    ghost use Rattle.lazy_world.specs.Seen.{KeepsStore, count, node_steps, rows};
    ghost use Rattle.lazy_world.specs.Worlds.{seen};

    /// Whether a page of a range is a place's own.
    fn has_own_between(&self, place: usize, range: Range) -> bool
        requires place { place < count self.now.places }
        requires order { range.from ≤ range.to }
        requires inside { range.to ≤ MOST_PAGES }
        ensures some { result ≡ true → (p : ℕ) × (range.from ≤ p) × (p < range.to)
            × (has_own (Page p) (rows self.now.places place (Page p)) ≡ true) }
        ensures none { result ≡ false → (p : ℕ) → range.from ≤ p → p < range.to
            → has_own (Page p) (rows self.now.places place (Page p)) ≡ false }
    {
        let mut p: PageNumber = range.from;
        'pages: while p < range.to {
            let (state, edge) = self.places.pages.run_at(place, p);
            if is_of_own(state) {
                return true;
            }
            p = edge;
        }
        false
    }

    /// Whether an item shares a page that is a place's own.
    fn shares_own_page(&self, place: usize, item: &Item) -> bool
        requires place { place < count self.now.places }
        requires item { IsItem MOST_PAGES item.now }
        ensures share { result ≡ true → item.now.mode ≡ Share }
        ensures some { result ≡ true → (p : ℕ) × (names item.now (Page p) ≡ true)
            × (has_own (Page p) (rows self.now.places place (Page p)) ≡ true) }
        ensures none { result ≡ false → (p : ℕ) → names item.now (Page p) ≡ true → item.now.mode ≡ Share
            → has_own (Page p) (rows self.now.places place (Page p)) ≡ false }
    {
        if !is_share(item) {
            return false;
        }
        match item.pages() {
            Some(range) => self.has_own_between(place, range),
            None => false,
        }
    }

    /// Whether a page of a place moves. Only the pages of items that share are looked at.
    fn moves_page(&self, place: usize, spec: &Items) -> bool
        requires { place < count self.now.places }
        ensures some { result ≡ true
            → (p : ℕ) × (moves spec.now (Page p) (rows self.now.places place) ≡ true) }
        ensures none { result ≡ false → (p : ℕ) → p < MOST_PAGES
            → moves spec.now (Page p) (rows self.now.places place) ≡ false }
    {
        for item in spec.items() {
            if self.shares_own_page(place, item) {
                return true;
            }
        }
        false
    }

    /// Whether a slot of a place moves.
    fn moves_slot(&self, place: usize, spec: &Items) -> bool
        requires { place < count self.now.places }
        ensures some { result ≡ true → (n : ℕ) × (n < SLOTS)
            × (moves spec.now (Slot n) (rows self.now.places place) ≡ true) }
        ensures none { result ≡ false → (n : ℕ) → n < SLOTS
            → moves spec.now (Slot n) (rows self.now.places place) ≡ false }
    {
        if !names_slots(spec) {
            return false;
        }
        for n in 0..SLOTS {
            if self.found_slot(place, n).moves(mode_of(spec, Key::Slot(n))) {
                return true;
            }
        }
        false
    }

    /// Whether the credential of a place moves.
    fn moves_uid(&self, place: usize, spec: &Items) -> bool
        requires { place < count self.now.places }
        ensures { result ≡ moves spec.now Cred (rows self.now.places place) }
    {
        self.found_uid(place).moves(mode_of(spec, Key::Cred))
    }

    /// Whether `clone_context` and `overlay` make a group: an item of mode share names a key that is
    /// present and the context's own.
    pub(crate) fn needs_group(&self, context: Name, spec: &Items) -> bool
        requires live { IsLive (seen self.now) context }
        requires within { IsSpec (seen self.now).size.pages spec.now }
        ensures value { result ≡ needs_group (seen self.now) context spec.now }
    {
        if shares_nothing(spec) {
            return false;
        }
        let i = self.place(context);
        if self.moves_page(i, spec) {
            return true;
        }
        if self.moves_slot(i, spec) {
            return true;
        }
        self.moves_uid(i, spec)
    }

    /// A context gets the cells that a transfer gives it of another one, which may be the same, key by key.
    /// For each range of the other one and for each item it takes at most 3064 node steps and 16 free nodes,
    /// and 1532 steps and 9 nodes besides. No frame is taken or written.
    // The origins are a large value, which each caller would clear if this were a part of it.
    #[inline(never)]
    pub(crate) fn follow(
        &mut self,
        transfer: Transfer,
        spec: &Items,
        target: Name,
        of_context: Name,
    )
        requires from { IsLive (seen self.old) target }
        requires to { IsLive (seen self.old) of_context }
        requires transfer { IsOfContexts transfer target of_context }
        requires within { IsSpec (seen self.old).size.pages spec.now }
        requires ready { IsReady (seen self.old) transfer spec.now (context (seen self.old) target) }
        requires fresh { IsFresh (followed (seen self.old) transfer spec.now target of_context) }
        requires few { ranges_of (followed (seen self.old) transfer spec.now target of_context) of_context
            ≤ MOST_RANGES }
        ensures world { seen self.new ≡ followed (seen self.old) transfer spec.now target of_context }
        ensures store { TakesNodes self.old self.new (change_nodes (pieces (seen self.old) target spec.now)) }
        ensures steps { node_steps self.new.places
            ≤ node_steps self.old.places + change_steps (pieces (seen self.old) target spec.now) }
    {
        let from = self.place(target);
        let to = self.place(of_context);
        let mut origins = Origins::none();
        self.origins(transfer, spec, from, to, &mut origins);
        self.places.take(to, &origins);
    }

    /// A job makes its next group, which has nothing in it, and answers its name.
    pub(crate) fn add_group(&mut self, job: u32) -> Name
        requires known { job < (seen self.old).size.jobs }
        requires few { ((seen self.old).next job).groups < 2 ^ 31 }
        requires place { HasGroupPlace (seen self.old) }
        ensures name { result ≡ next_group (seen self.old) job }
        ensures world { seen self.new ≡ add_group (seen self.old) job new_group }
        ensures store { KeepsStore self.old.places self.new.places }
    {
        let counts = self.counts[job as usize];
        let name = Name {
            job,
            k: counts.groups,
        };
        let j = self.groups.insert(name);
        self.places
            .put_uid(self.size.contexts as usize + j, Cell::Own(NOBODY));
        self.counts[job as usize] = Counters {
            groups: counts.groups + 1,
            ..counts
        };
        name
    }

    /// A group without values gets those of a context that items move, and nothing else.
    pub(crate) fn fill_group(&mut self, group_name: Name, of_context: Name, spec: &Items)
        requires live { IsLive (seen self.old) of_context }
        requires within { IsSpec (seen self.old).size.pages spec.now }
        requires empty { group (seen self.old) group_name ≡ new_group }
        requires few { ranges MOST_PAGES (states_of
            (transferred_row (seen self.old) Move spec.now (context (seen self.old) of_context).cell no_row)
            (transferred_rights Move spec.now (context (seen self.old) of_context).cell
            (context (seen self.old) of_context).right all_write)) ≤ MOST_RANGES }
        ensures world { seen self.new ≡ change_group (seen self.old) group_name
            (λ x. moved_values spec.now (context (seen self.old) of_context)) }
        ensures store { TakesNodes self.old self.new
            (fill_nodes (pieces (seen self.old) of_context spec.now)) }
        ensures steps { node_steps self.new.places
            ≤ node_steps self.old.places + fill_steps (pieces (seen self.old) of_context spec.now) }
    {
        let from = self.place(of_context);
        match self.groups.place(group_name) {
            Some(j) => {
                let to = self.size.contexts as usize + j;
                let mut origins = Origins::none();
                self.origins(Transfer::Move, spec, from, to, &mut origins);
                self.places.take(to, &origins);
            }
            None => {}
        }
    }

    /// Moves a context's own values under share into a new group of the job, if there are any; else nothing
    /// changes.
    #[tactic(auto, using(lwc_base::proofs::Facts::changes))]
    pub(crate) fn share(&mut self, context: Name, spec: &Items, job: u32)
        requires live { IsLive (seen self.old) context }
        requires within { IsSpec (seen self.old).size.pages spec.now }
        requires may { MayName (seen self.old) job }
        requires group { needs_group (seen self.old) context spec.now ≡ true → HasGroupPlace (seen self.old) }
        requires few { ranges_of (share (seen self.old) context job spec.now) context ≤ MOST_RANGES }
        ensures world { seen self.new ≡ share (seen self.old) context job spec.now }
        ensures none { needs_group (seen self.old) context spec.now ≡ false → self.new ≡ self.old }
        ensures store { TakesNodes self.old self.new (fill_nodes (pieces (seen self.old) context spec.now)
            + change_nodes (pieces (seen self.old) context spec.now)) }
        ensures steps { node_steps self.new.places
            ≤ node_steps self.old.places + (fill_steps (pieces (seen self.old) context spec.now)
            + change_steps (pieces (seen self.old) context spec.now)) }
    {
        if self.needs_group(context, spec) {
            let g = self.add_group(job);
            self.fill_group(g, context, spec);
            self.follow(Transfer::Mark(g), spec, context, context);
        }
    }
}
