ghost use Rattle.std.specs.Prelude.{◌≡◌, ◌≤◌, [], length};
ghost use Rattle.std.specs.List.{filter_map, list_any, position};
ghost use Rattle.std.specs.FinMap as fm;
ghost use Rattle.lwc_base.specs.Lending.{descriptor_of};
ghost use Rattle.lwc_base.specs.Life.{is_in, is_reached, names_group};
ghost use Rattle.lwc_types.specs.declared.limits.TheConstants.{MOST_ROOTS};
ghost use Rattle.whole_world.specs.Reaping.{AddsMarks};
ghost use Rattle.whole_world.specs.Rows.{context_of};
ghost use Rattle.whole_world.specs.Sound.{IsWhole};
ghost use Rattle.whole_world.specs.Tables.{has_name};
ghost use Rattle.whole_world.specs.Worlds.{seen};

use crate::context_row::ContextRow;
use crate::world::WholeWorld;
use arrayvec::ArrayVec;
use lwc_base::{Cell, Lent, Name, SlotNumber};
use reach::{Links, Marks, mark};

/// The places are those of the rows of contexts.
impl Links for WholeWorld {
    ghost use Rattle.whole_world.specs.Reaping as spec;

    ghost link_of = { spec.link_of };

    fn link(&self, place: usize, slot: SlotNumber) -> Option<usize> {
        match self.contexts.name_at(place) {
            Some(c) => self.place_of(self.slot_value(c, slot)),
            None => None,
        }
    }
}

impl WholeWorld {
    ghost use Rattle.lwc_types.specs.declared.limits.TheConstants.{MOST_CONTEXTS};
    ghost use Rattle.std.specs.Prelude.{◌<◌, IfSome};
    ghost use Rattle.whole_world.specs.Reaping.{place_in};

    /// Drops the contexts that are not reached from the roots.
    pub(crate) fn drop_contexts(&mut self, roots: &[Name])
        requires { length roots.now ≤ MOST_ROOTS }
        ensures { seen self.new ≡ record (seen self.old) {
          contexts = fm.retain_keys (seen self.old).contexts (is_reached (seen self.old) roots.now);
        } }
    {
        let mut marks = Marks::new();
        let places = self.places_of(roots);
        mark(self, places.as_slice(), &mut marks);
        self.contexts.keep(marks.as_slice());
    }

    /// Drops the groups that no cell names.
    pub(crate) fn drop_groups(&mut self)
        ensures { seen self.new ≡ record (seen self.old) {
          groups = fm.retain_keys (seen self.old).groups
              (λ g. list_any (names_group (seen self.old).size.pages g) (fm.values (seen self.old).contexts));
        } }
    {
        let marks = self.named_groups();
        self.groups.keep(&marks);
    }

    /// The place of the context that a descriptor is of, if it is live.
    fn place_of(&self, value: Lent<'_>) -> Option<usize>
        ensures place { result ≡ place_in self.now.contexts.rows.items (descriptor_of value.entry) }
        ensures within { IfSome result (λ place. place < MOST_CONTEXTS) }
    {
        match value {
            Lent::Ctx { name, .. } => self.contexts.position(name),
            _ => None,
        }
    }

    /// The places of the live ones of some contexts.
    fn places_of(&self, names: &[Name]) -> ArrayVec<usize, 32>
        requires { length names.now ≤ MOST_ROOTS }
        ensures { result.items ≡ filter_map (λ c. position (has_name c) self.now.contexts.rows.items)
            names.now }
    {
        let mut places = ArrayVec::new();
        for name in names {
            if let Some(place) = self.contexts.position(*name) {
                places.push(place);
            }
        }
        places
    }

    /// Marks for the groups that cells name.
    fn named_groups(&self) -> [bool; 1024]
        ensures { AddsMarks self.now.groups.rows.items (λ g. list_any
            (names_group (seen self.now).size.pages g) (fm.values (seen self.now).contexts)) [] result }
    {
        let mut marks = [false; 1024];
        for row in self.contexts.rows.iter() {
            self.mark_row(&row.1, &mut marks);
        }
        marks
    }

    /// Marks the groups that the cells of a context name.
    fn mark_row(&self, row: &ContextRow, marks: &mut [bool; 1024])
        requires { IsWhole (seen self.now).size.pages row.now }
        ensures { AddsMarks self.now.groups.rows.items (λ g. names_group (seen self.now).size.pages g
            (context_of row.now)) marks.old marks.new }
    {
        self.mark_cells(row.pages.as_slice(), marks);
        self.mark_cells(row.slots.as_slice(), marks);
        self.mark_cell(&row.uid, marks);
    }

    /// Marks the groups that some cells name.
    fn mark_cells<T>(&self, cells: &[Cell<T>], marks: &mut [bool; 1024])
        ensures { AddsMarks self.now.groups.rows.items (λ g. list_any (is_in g) cells.now)
            marks.old marks.new }
    {
        for cell in cells {
            self.mark_cell(cell, marks);
        }
    }

    /// Marks the group that a cell names, if it names a live one.
    fn mark_cell<T>(&self, cell: &Cell<T>, marks: &mut [bool; 1024])
        ensures { AddsMarks self.now.groups.rows.items (λ g. is_in g cell.now) marks.old marks.new }
    {
        if let Cell::Common(g) = cell {
            if let Some(place) = self.groups.position(*g) {
                marks[place] = true;
            }
        }
    }
}
