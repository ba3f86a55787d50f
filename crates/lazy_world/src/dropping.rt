ghost use Rattle.std.specs.Prelude.{◌≡◌, ◌<◌, ◌≤◌, None, Some, false, length, slice_index_or, true};
ghost use Rattle.std.specs.FinMap as fm;
ghost use Rattle.world_face.specs.Calls.{IsLive};
ghost use Rattle.cow_space.specs.Cells.{all_write};
ghost use Rattle.lwc_types.specs.declared.name.Name.{Name};
ghost use Rattle.lazy_world.specs.Cells.{no_row, put_rights, put_row};
ghost use Rattle.lazy_world.specs.Reaping.{NamesMarked, NamesNone, keeps, left_by, passes};
ghost use Rattle.lazy_world.specs.Seen.{count, frame_count, rights, rows};
ghost use Rattle.lazy_world.specs.Worlds.{parts, seen};

use crate::places::Places;
use crate::world::PlacedWorld;
use lwc_base::{Cell, NOBODY, Name};

impl Places {
    /// Takes all that a place has, and gives back what no other place shares.
    pub fn clear(&mut self, place: usize)
        requires place { place < count self.old }
        ensures rows { rows self.new ≡ put_row (rows self.old) place no_row }
        ensures rights { rights self.new ≡ put_rights (rights self.old) place all_write }
        ensures count { count self.new ≡ count self.old }
        ensures frames { frame_count self.new ≡ frame_count self.old }
    {
        self.pages.clear_place(place);
        self.slots.clear_place(place);
        self.uids[place] = Cell::Own(NOBODY);
    }
}

impl PlacedWorld {
    /// Drops each context at a place without a mark.
    pub(crate) fn keep_contexts(&mut self, marks: &[bool])
        requires { (parts self.old).size.contexts ≤ length marks.now }
        ensures { seen self.new ≡ record (seen self.old) {
          contexts = left_by self.old.contexts.map (keeps marks.now self.old.size.contexts)
              (seen self.old).contexts;
        } }
    {
        for i in 0..self.size.contexts as usize {
            self.keep_context(i, marks[i]);
        }
    }

    /// Drops the context at a place, if there is one and it does not stay.
    fn keep_context(&mut self, place: usize, stays: bool)
        ensures map { self.new.contexts.map
            ≡ left_by self.old.contexts.map (passes stays place) self.old.contexts.map }
        ensures world { seen self.new ≡ record (seen self.old) {
          contexts = left_by self.old.contexts.map (passes stays place) (seen self.old).contexts;
        } }
    {
        if stays {
            return;
        }
        if let Some(c) = self.contexts.at(place) {
            self.drop_context(c);
        }
    }

    /// Drops a context, with all that it has.
    pub(crate) fn drop_context(&mut self, context: Name)
        requires { IsLive (seen self.old) context }
        ensures map { self.new.contexts.map ≡ fm.remove self.old.contexts.map context }
        ensures world { seen self.new ≡ record (seen self.old) {
          contexts = fm.remove (seen self.old).contexts context;
        } }
    {
        let i = self.contexts.remove(context);
        self.places.clear(i);
    }

    /// Drops each group at a place without a mark; no page is common of it.
    pub(crate) fn keep_groups(&mut self, marks: &[bool])
        requires many { (parts self.old).size.groups ≤ length marks.now }
        requires unnamed { NamesMarked (parts self.old) marks.now }
        ensures { seen self.new ≡ record (seen self.old) {
          groups = left_by self.old.groups.map (keeps marks.now self.old.size.groups) (seen self.old).groups;
        } }
    {
        for j in 0..self.size.groups as usize {
            self.keep_group(j, marks[j]);
        }
    }

    /// Drops the group at a place, if there is one and it does not stay.
    fn keep_group(&mut self, place: usize, stays: bool)
        requires { stays ≡ false → (g : Name) → slice_index_or self.old.groups.places place None ≡ Some g
            → NamesNone (parts self.old) g }
        ensures names { (g : Name) → NamesNone (parts self.old) g → NamesNone (parts self.new) g }
        ensures map { self.new.groups.map
            ≡ left_by self.old.groups.map (passes stays place) self.old.groups.map }
        ensures world { seen self.new ≡ record (seen self.old) {
          groups = left_by self.old.groups.map (passes stays place) (seen self.old).groups;
        } }
    {
        if stays {
            return;
        }
        if let Some(g) = self.groups.at(place) {
            self.drop_group(g);
        }
    }

    /// Drops a group that no page is common of, with all values that it has.
    fn drop_group(&mut self, group: Name)
        requires there { fm.contains_key (seen self.old).groups group ≡ true }
        requires unnamed { NamesNone (parts self.old) group }
        ensures names { (h : Name) → NamesNone (parts self.old) h → NamesNone (parts self.new) h }
        ensures map { self.new.groups.map ≡ fm.remove self.old.groups.map group }
        ensures world { seen self.new ≡ record (seen self.old) {
          groups = fm.remove (seen self.old).groups group;
        } }
    {
        let j = self.groups.remove(group);
        self.places.clear(self.size.contexts as usize + j);
    }
}
