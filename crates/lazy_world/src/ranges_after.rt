#![tactic(auto, unfolding(crate::specs::Seen::rows, crate::specs::Seen::rights, crate::specs::Cells::rows_of))]

ghost use Rattle.std.specs.Prelude.{◌≡◌, ◌<◌, ℕ};
ghost use Rattle.lwc_base.specs.Modes.{IsSpec};
ghost use Rattle.lwc_types.specs.declared.limits.TheConstants.{MOST_PAGES};
ghost use Rattle.range_map.specs.Kinds.{ranges};
ghost use Rattle.lazy_world.specs.Cells.{states_of};
ghost use Rattle.lazy_world.specs.Seen.{count, rights, rows};

use crate::transfer::Transfer;
use crate::world::PlacedWorld;
use item_modes::ModeRun;
use lwc_base::{Items, MOST_PAGES, Name, PageNumber};

impl PlacedWorld {
    ghost use Rattle.lwc_base.specs.Overlay.{ranges_after_overlay};
    ghost use Rattle.lwc_base.specs.Ranges.{ranges_of};
    ghost use Rattle.lwc_base.specs.Sharing.{ranges_after_clone};
    ghost use Rattle.lwc_base.specs.World.{next_group};
    ghost use Rattle.world_face.specs.Calls.{IsLive};
    ghost use Rattle.lazy_world.specs.Followed.{IsOfContexts, followed};
    ghost use Rattle.lazy_world.specs.Transfers.{IsFor};
    ghost use Rattle.lazy_world.specs.declared.transfer.Transfer.TheVariants.{Mark};
    ghost use Rattle.lazy_world.specs.Worlds.{parts, right_transferred, transferred, seen};

    /// The name of the next group of job 0, which no cell has.
    fn unnamed(&self) -> Name
        ensures { result ≡ next_group (seen self.now) 0 }
    {
        Name {
            job: 0,
            k: self.counts[0].groups,
        }
    }

    /// The number of ranges of the place `to` once it got the cells that a transfer gives it of the place
    /// `from`. It goes from stretch to stretch.
    fn count_transferred(&self, transfer: Transfer, spec: &Items, from: usize, to: usize) -> u32
        requires from { from < count self.now.places }
        requires to { to < count self.now.places }
        requires transfer { IsFor (parts self.now).size.contexts from to transfer }
        ensures { result ≡ ranges MOST_PAGES
            (states_of (transferred self.now transfer spec.now from to)
            (right_transferred self.now transfer spec.now from to)) }
    {
        let mut count = 0u32;
        let mut last = None;
        let mut modes = ModeRun::empty();
        let mut p: PageNumber = 0;
        'pages: while p < MOST_PAGES {
            let stretch = self.stretch_from(transfer, spec, modes, from, to, p);
            let page_run = stretch.whole(to, p);
            let (more, end) = self.places.pages.count_given(&page_run, last);
            count += more;
            last = end;
            modes = stretch.modes;
            p = stretch.to;
        }
        count
    }

    /// The number of ranges of a context once it got the cells that a transfer gives it of another one.
    fn ranges_after(&self, transfer: Transfer, spec: &Items, target: Name, context: Name) -> u32
        requires from { IsLive (seen self.now) target }
        requires to { IsLive (seen self.now) context }
        requires transfer { IsOfContexts transfer target context }
        requires within { IsSpec (seen self.now).size.pages spec.now }
        ensures { result ≡ ranges_of (followed (seen self.now) transfer spec.now target context) context }
    {
        let from = self.place(target);
        let to = self.place(context);
        if self.gives_same(transfer, spec, from) {
            self.places.pages.count(from)
        } else {
            self.count_transferred(transfer, spec, from, to)
        }
    }

    /// The number of ranges of a context once its own values of mode share are common of a group. Mostly none
    /// is, and the ranges are as they were.
    fn ranges_left(&self, context: Name, items: &Items) -> u32
        requires live { IsLive (seen self.now) context }
        requires within { IsSpec (seen self.now).size.pages items.now }
        ensures { result
            ≡ ranges_of (followed (seen self.now)
            (Mark (next_group (seen self.now) 0)) items.now context context) context }
    {
        if self.needs_group(context, items) {
            self.ranges_after(Transfer::Mark(self.unnamed()), items, context, context)
        } else {
            self.places.pages.count(self.place(context))
        }
    }

    /// The numbers of ranges that the context and the new one would have after `clone_context`, in this
    /// order. They are the same for every job.
    pub(crate) fn ranges_after_clone(&self, of_context: Name, spec: &Items) -> (u32, u32)
        requires live { IsLive (seen self.now) of_context }
        requires within { IsSpec (seen self.now).size.pages spec.now }
        ensures value { (job : ℕ) → result ≡ ranges_after_clone (seen self.now) of_context job spec.now }
    {
        // The new context's cells do not depend on what is at its place, so that any place will do.
        let made = self.ranges_after(
            Transfer::Clone(self.unnamed()),
            spec,
            of_context,
            of_context,
        );
        (self.ranges_left(of_context, spec), made)
    }

    /// The numbers of ranges that the contexts `from` and `to` would have after `overlay`, in this order.
    /// They are the same for every job.
    pub(crate) fn ranges_after_overlay(&self, to: Name, from: Name, spec: &Items) -> (u32, u32)
        requires to { IsLive (seen self.now) to }
        requires from { IsLive (seen self.now) from }
        requires within { IsSpec (seen self.now).size.pages spec.now }
        ensures value { (job : ℕ) → result ≡ ranges_after_overlay (seen self.now) to from job spec.now }
    {
        let taken = self.ranges_after(Transfer::Overlay(self.unnamed()), spec, from, to);
        if to == from {
            return (taken, taken);
        }
        (self.ranges_left(from, spec), taken)
    }
}
