ghost use Rattle.std.specs.Prelude.{◌≡◌, if◌then◌else◌, ℕ, ◌<◌, ◌≤◌, IsTrue};
ghost use Rattle.whole_world.specs.Holders.{begins_after, begins_here, count_of_ranges, moved_holder};
ghost use Rattle.whole_world.specs.declared.holder.Side as sides;
ghost use Rattle.whole_world.specs.declared.holder.Holder.TheVariants.{Nobody, Own};

use crate::holder::{Holder, Side};
use crate::world::WholeWorld;
use lwc_base::{Items, Key, Mode, Name, PageNumber, Range, Right};
use res_spec::{mode_of, mode_or_copy};

/// Who has a value once a clone has moved the context's own values of mode share.
fn moved_holder(mode: Mode, holder: Holder) -> Holder
    ensures { result ≡ moved_holder mode holder }
{
    match (mode, holder) {
        (Mode::Share, Holder::Own) => Holder::NewGroup,
        (Mode::Copy | Mode::Share | Mode::Unmap | Mode::CopyRead, other) => other,
    }
}

/// The holder of a page that is a context's own, if it is present.
fn own_if(present: bool) -> Holder
    ensures { result ≡ if present then Own else Nobody }
{
    if present { Holder::Own } else { Holder::Nobody }
}

/// The number of ranges of this number of pages, by who has the value of each, and its right.
fn count_ranges<F: Fn(PageNumber) -> Side>(pages: PageNumber, side: F) -> u32
    requires { F.IsAlwaysCallable side }
    ensures { (each : ℕ → sides.Side) → ((p : ℕ) (s : sides.Side)
        → p < pages → F.post side p s → s ≡ each p) → result ≡ count_of_ranges pages each }
{
    let mut before = Side {
        holder: Holder::Nobody,
        right: Right::Write,
    };
    let mut count = 0;
    for p in 0..pages {
        let here = side(p);
        count += u32::from(begins_here(before, here));
        before = here;
    }
    count
}

/// Whether a range begins at a page, after another one.
fn begins_here(before: Side, here: Side) -> bool
    ensures { result ≡ begins_here before here }
{
    begins_after(before.holder, here.holder)
        || (here.holder.is_somebody() && before.right != here.right)
}

/// Whether a range begins at a page of one holder, after a page of another.
fn begins_after(before: Holder, here: Holder) -> bool
    ensures { result ≡ begins_after before here }
{
    here != Holder::Nobody && here != before
}

impl WholeWorld {
    ghost use Rattle.lwc_base.specs.Mapping.{mapped_or_not, writable_in};
    ghost use Rattle.lwc_base.specs.Modes.{IsSpec, mode};
    ghost use Rattle.lwc_base.specs.Overlay.{overlaid_right, ranges_after_overlay};
    ghost use Rattle.lwc_base.specs.Ranges.{ranges_of};
    ghost use Rattle.lwc_base.specs.Rights.{right_at};
    ghost use Rattle.lwc_base.specs.Sharing.{ranges_after_clone};
    ghost use Rattle.lwc_base.specs.World.{context, is_live};
    ghost use Rattle.lwc_types.specs.declared.key.Key.TheVariants.{Page};
    ghost use Rattle.whole_world.specs.Holders.{holder_after_clone, holder_after_map, holder_after_overlay};
    ghost use Rattle.whole_world.specs.Holders.{holder_in_clone, page_holder};
    ghost use Rattle.whole_world.specs.Holders.{side_after_clone, side_after_map, side_after_overlay};
    ghost use Rattle.whole_world.specs.Holders.{side_in_clone};
    ghost use Rattle.whole_world.specs.Worlds.{seen};

    /// The numbers of ranges that the context and the new one would have after a clone, in this order.
    pub(crate) fn clone_ranges(&self, context: Name, spec: &Items) -> (u32, u32)
        requires live { IsTrue (is_live (seen self.now) context) }
        requires within { IsSpec (seen self.now).size.pages spec.now }
        ensures { (job : ℕ) → result ≡ ranges_after_clone (seen self.now) context job spec.now }
    {
        let pages = self.page_count();
        (
            count_ranges(pages, |p| self.side_after_clone(context, spec, p)),
            count_ranges(pages, |p| self.side_in_clone(context, spec, p)),
        )
    }

    /// The numbers of ranges that the contexts `from` and `to` would have after an overlay, in this order.
    pub(crate) fn overlay_ranges(&self, to: Name, from: Name, spec: &Items) -> (u32, u32)
        requires to { IsTrue (is_live (seen self.now) to) }
        requires from { IsTrue (is_live (seen self.now) from) }
        requires within { IsSpec (seen self.now).size.pages spec.now }
        ensures { (job : ℕ) → result ≡ ranges_after_overlay (seen self.now) to from job spec.now }
    {
        let pages = self.page_count();
        let taken = count_ranges(pages, |p| self.side_after_overlay(to, from, spec, p));
        if to == from {
            return (taken, taken);
        }
        let left = count_ranges(pages, |p| self.side_after_clone(from, spec, p));
        (left, taken)
    }

    /// The number of ranges that the context would have once the pages of a range are present or absent.
    pub(crate) fn map_ranges(&self, context: Name, range: Range, present: bool) -> u32
        requires { IsTrue (is_live (seen self.now) context) }
        ensures { result
            ≡ ranges_of (mapped_or_not (seen self.now) context range.from range.to present) context }
    {
        count_ranges(self.page_count(), |p| {
            self.side_after_map(context, range, present, p)
        })
    }

    /// Who has the value of a page of a context.
    #[tactic(auto, unfolding(crate::specs::Holders::page_holder))]
    fn page_holder(&self, context: Name, page: PageNumber) -> Holder
        requires { IsTrue (is_live (seen self.now) context) }
        ensures { result ≡ page_holder (seen self.now) context page }
    {
        self.row(context).holder(Key::Page(page))
    }

    /// The holder of a page of the context after it has been cloned.
    #[tactic(auto, unfolding(crate::specs::Holders::holder_after_clone))]
    fn holder_after_clone(&self, context: Name, spec: &Items, page: PageNumber) -> Holder
        requires { IsTrue (is_live (seen self.now) context) }
        ensures { result ≡ holder_after_clone (seen self.now) context spec.now page }
    {
        let mode = mode_or_copy(spec, Key::Page(page));
        moved_holder(mode, self.page_holder(context, page))
    }

    /// The holder of a page of the clone.
    #[tactic(auto, unfolding(crate::specs::Holders::holder_in_clone))]
    fn holder_in_clone(&self, context: Name, spec: &Items, page: PageNumber) -> Holder
        requires { IsTrue (is_live (seen self.now) context) }
        ensures { result ≡ holder_in_clone (seen self.now) context spec.now page }
    {
        match mode_or_copy(spec, Key::Page(page)) {
            Mode::Copy | Mode::CopyRead => own_if(self.is_present(context, page)),
            Mode::Share => moved_holder(Mode::Share, self.page_holder(context, page)),
            Mode::Unmap => Holder::Nobody,
        }
    }

    /// The holder of a page of the context `to` once it has taken over from the context `from`.
    #[tactic(auto, unfolding(crate::specs::Holders::holder_after_overlay))]
    fn holder_after_overlay(&self, to: Name, from: Name, spec: &Items, page: PageNumber) -> Holder
        requires to { IsTrue (is_live (seen self.now) to) }
        requires from { IsTrue (is_live (seen self.now) from) }
        ensures { result ≡ holder_after_overlay (seen self.now) to from spec.now page }
    {
        match mode_of(spec, Key::Page(page)) {
            Some(Mode::Copy | Mode::CopyRead) => own_if(self.is_present(from, page)),
            Some(Mode::Share) => moved_holder(Mode::Share, self.page_holder(from, page)),
            Some(Mode::Unmap) => Holder::Nobody,
            None => self.page_holder(to, page),
        }
    }

    /// The holder of a page of the context after the pages of a range are made present or absent.
    #[tactic(auto, unfolding(crate::specs::Holders::holder_after_map))]
    fn holder_after_map(
        &self,
        context: Name,
        range: Range,
        present: bool,
        page: PageNumber,
    ) -> Holder
        requires { IsTrue (is_live (seen self.now) context) }
        ensures { result ≡ holder_after_map (seen self.now) context range.from range.to present page }
    {
        if range.from <= page && page < range.to {
            own_if(present)
        } else {
            self.page_holder(context, page)
        }
    }
    /// A page of the context after it has been cloned.
    #[tactic(auto, unfolding(crate::specs::Holders::side_after_clone))]
    fn side_after_clone(&self, context: Name, spec: &Items, page: PageNumber) -> Side
        requires { IsTrue (is_live (seen self.now) context) }
        ensures { result ≡ side_after_clone (seen self.now) context spec.now page }
    {
        Side {
            holder: self.holder_after_clone(context, spec, page),
            right: self.right(context, page),
        }
    }

    /// A page of the clone.
    #[tactic(auto, unfolding(crate::specs::Holders::side_in_clone))]
    fn side_in_clone(&self, context: Name, spec: &Items, page: PageNumber) -> Side
        requires { IsTrue (is_live (seen self.now) context) }
        ensures { result ≡ side_in_clone (seen self.now) context spec.now page }
    {
        Side {
            holder: self.holder_in_clone(context, spec, page),
            right: self.cloned_right(context, page, mode_or_copy(spec, Key::Page(page))),
        }
    }

    /// A page of the context `to` once it has taken over from the context `from`.
    #[tactic(auto, unfolding(crate::specs::Holders::side_after_overlay))]
    fn side_after_overlay(&self, to: Name, from: Name, spec: &Items, page: PageNumber) -> Side
        requires to { IsTrue (is_live (seen self.now) to) }
        requires from { IsTrue (is_live (seen self.now) from) }
        ensures { result ≡ side_after_overlay (seen self.now) to from spec.now page }
    {
        Side {
            holder: self.holder_after_overlay(to, from, spec, page),
            right: self.overlaid_right(to, from, spec, page),
        }
    }

    /// The right of a page of the context `to` once it has taken over from the context `from`.
    fn overlaid_right(&self, to: Name, from: Name, spec: &Items, page: PageNumber) -> Right
        requires to { IsTrue (is_live (seen self.now) to) }
        requires from { IsTrue (is_live (seen self.now) from) }
        ensures { result ≡ overlaid_right (seen self.now) from page (mode spec.now (Page page))
            (right_at (seen self.now) to page) }
    {
        match mode_of(spec, Key::Page(page)) {
            Some(mode) => self.cloned_right(from, page, mode),
            None => self.right(to, page),
        }
    }

    /// A page of the context after the pages of a range are made present or absent.
    #[tactic(auto, unfolding(crate::specs::Holders::side_after_map))]
    fn side_after_map(&self, context: Name, range: Range, present: bool, page: PageNumber) -> Side
        requires { IsTrue (is_live (seen self.now) context) }
        ensures { result ≡ side_after_map (seen self.now) context range.from range.to present page }
    {
        Side {
            holder: self.holder_after_map(context, range, present, page),
            right: self.right_after_map(context, range, page),
        }
    }

    /// The right of a page of the context after the pages of a range are made present or absent.
    fn right_after_map(&self, of_context: Name, range: Range, page: PageNumber) -> Right
        requires { IsTrue (is_live (seen self.now) of_context) }
        ensures { result ≡ writable_in range.from range.to (context (seen self.now) of_context).right page }
    {
        if range.from <= page && page < range.to {
            Right::Write
        } else {
            self.right(of_context, page)
        }
    }
}
