ghost use Rattle.std.specs.Prelude.{◌≡◌, if◌then◌else◌, ◌<◌, ◌≤◌, ℕ, IsTrue, slice_index_or, vec_len};
ghost use Rattle.lwc_base.specs.Capabilities.{is_named};
ghost use Rattle.lwc_base.specs.Modes.{limit};
ghost use Rattle.lwc_types.specs.declared.limits.TheConstants.{MOST_PAGES};
ghost use Rattle.whole_world.specs.Rows.{context_of};
ghost use Rattle.whole_world.specs.Sharing.{key_of, with_taken};
ghost use Rattle.whole_world.specs.Sound.{HasSizeOf, IsWhole};

use crate::context_row::ContextRow;
use crate::world::WholeWorld;
use lwc_base::{Items, Key, Kind, Name, PageNumber, SlotNumber};
use res_spec::mode_of;

/// The key of a kind that has a number.
fn key_of(kind: Kind, number: usize) -> Key
    requires { number < limit MOST_PAGES kind }
    ensures { result ≡ key_of kind number }
{
    match kind {
        Kind::Page => Key::Page(number as PageNumber),
        Kind::Slot => Key::Slot(number as SlotNumber),
        Kind::Cred => Key::Cred,
    }
}

/// Takes what there is for the keys of a kind that a spec names, out of as much else.
fn take_cells<T>(mine: &mut Vec<T>, mut theirs: Vec<T>, kind: Kind, spec: &Items)
where
    T: Drop,
    requires many { vec_len mine.old ≡ vec_len theirs }
    requires few { vec_len mine.old ≤ limit MOST_PAGES kind }
    ensures many { vec_len mine.new ≡ vec_len mine.old }
    ensures cells { (n : ℕ) (d : T) → slice_index_or mine.new.items n d
        ≡ (if is_named spec.now (key_of kind n) then slice_index_or theirs.items n d
        else slice_index_or mine.old.items n d) }
{
    for n in 0..mine.len() {
        if mode_of(spec, key_of(kind, n)).is_some() {
            std::mem::swap(&mut mine[n], &mut theirs[n]);
        }
    }
}

impl ContextRow {
    /// Takes the cells of the keys that a spec names, and the rights of its pages, out of another row.
    pub fn take_named(&mut self, pages: PageNumber, spec: &Items, other: ContextRow)
        requires pages { pages ≤ MOST_PAGES }
        requires whole { IsWhole pages self.old }
        requires other { IsWhole pages other }
        ensures size { HasSizeOf self.old self.new }
        ensures context { context_of self.new
            ≡ with_taken (is_named spec.now) (context_of other) (context_of self.old) }
    {
        take_cells(&mut self.pages, other.pages, Kind::Page, spec);
        take_cells(&mut self.rights, other.rights, Kind::Page, spec);
        take_cells(&mut self.slots, other.slots, Kind::Slot, spec);
        if mode_of(spec, Key::Cred).is_some() {
            self.uid = other.uid;
        }
    }
}

impl WholeWorld {
    ghost use Rattle.lwc_base.specs.Fresh.{named_groups};
    ghost use Rattle.lwc_base.specs.Holders.{InContext};
    ghost use Rattle.lwc_base.specs.World.{change_context, is_live};
    ghost use Rattle.whole_world.specs.Worlds.{seen};

    /// A context takes the cells of the keys that a spec names, and the rights of its pages, out of a row.
    pub(crate) fn take_over(&mut self, context: Name, spec: &Items, row: ContextRow)
        requires live { IsTrue (is_live (seen self.old) context) }
        requires whole { IsWhole (seen self.old).size.pages row }
        requires old_groups { InContext (named_groups (seen self.old).next) context.job (context_of row) }
        ensures { seen self.new ≡ change_context (seen self.old) context
            (with_taken (is_named spec.now) (context_of row)) }
    {
        let pages = self.page_count();
        match self.contexts.position(context) {
            Some(i) => self.contexts.rows[i].1.take_named(pages, spec, row),
            None => unreachable!(),
        }
    }
}
