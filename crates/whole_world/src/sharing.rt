ghost use Rattle.std.specs.Prelude.{◌≡◌, if◌then◌else◌, ◌+◌, ◌<◌, ◌≤◌, ◌^◌, IsTrue, OnErr, OnOk, true};
ghost use Rattle.std.specs.Prelude.{vec_len};
ghost use Rattle.std.specs.List.{list_any, range_with_len};
ghost use Rattle.lwc_base.specs.declared.cell.Cell.TheVariants.{Common};
ghost use Rattle.lwc_base.specs.Cells.{with_cell, with_value};
ghost use Rattle.lwc_base.specs.Modes.{IsSpec, mode_or_copy};
ghost use Rattle.lwc_base.specs.Sharing.{any_key, with_shared, moved_value, moved_values, is_moved};
ghost use Rattle.lwc_base.specs.World.{new_group};
ghost use Rattle.lwc_types.specs.declared.key.TheConstants.{SLOTS};
ghost use Rattle.lwc_types.specs.declared.key.Key.TheVariants.{Page, Slot};
ghost use Rattle.lwc_types.specs.declared.key.Kind.TheVariants as kind;
ghost use Rattle.whole_world.specs.Rows.{context_of, group_of};
ghost use Rattle.whole_world.specs.Sharing.{gave, is_below, took};
ghost use Rattle.whole_world.specs.Sound.{HasGroupSizeOf, HasKey, HasSizeOf, HasSlot, IsWhole, IsWholeGroup};

use crate::context_row::ContextRow;
use crate::group_row::GroupRow;
use crate::world::WholeWorld;
use lwc_base::{Items, Key, Mode, Name, OutOfMemory, PageNumber, SLOTS};
use res_spec::mode_or_copy;

impl ContextRow {
    /// Whether any value moves into a group, where the spec gives each key its mode.
    #[tactic(auto, unfolding(lwc_base::specs::Sharing::any_key))]
    pub fn moves_any(&self, pages: PageNumber, spec: &Items) -> bool
        requires { IsWhole pages self.now }
        ensures { result ≡ any_key pages (λ k. is_moved (mode_or_copy spec.now k) k
            ((context_of self.now).cell k)) }
    {
        self.moves_pages(pages, spec) || self.moves_slots(spec) || self.moves(spec, Key::Cred)
    }

    /// Whether the value of any page moves.
    fn moves_pages(&self, pages: PageNumber, spec: &Items) -> bool
        ensures { result ≡ list_any (λ p. is_moved (mode_or_copy spec.now (Page p)) (Page p)
            ((context_of self.now).cell (Page p))) (range_with_len 0 pages) }
    {
        (0..pages).any(|p| self.moves(spec, Key::Page(p)))
    }

    /// Whether the value of any slot moves.
    fn moves_slots(&self, spec: &Items) -> bool
        requires { vec_len self.now.slots ≡ SLOTS }
        ensures { result ≡ list_any (λ n. is_moved (mode_or_copy spec.now (Slot n)) (Slot n)
            ((context_of self.now).cell (Slot n))) (range_with_len 0 SLOTS) }
    {
        (0..SLOTS).any(|n| self.moves(spec, Key::Slot(n)))
    }

    /// Whether the value under a key moves.
    fn moves(&self, spec: &Items, key: Key) -> bool
        requires { HasSlot (vec_len self.now.slots) key }
        ensures { result ≡ is_moved (mode_or_copy spec.now key) key ((context_of self.now).cell key) }
    {
        self.is_moved(mode_or_copy(spec, key), key)
    }

    /// Moves the own values under share into a group of this name with nothing in it.
    pub fn move_values(&mut self, pages: PageNumber, spec: &Items, name: Name, group: &mut GroupRow)
        requires whole { IsWhole pages self.old }
        requires whole_group { IsWholeGroup pages group.old }
        requires within { IsSpec pages spec.now }
        requires empty { group_of group.old ≡ new_group }
        ensures whole { IsWhole pages self.new }
        ensures context { context_of self.new ≡ with_shared name spec.now (context_of self.old) }
        ensures whole_group { IsWholeGroup pages group.new }
        ensures group { group_of group.new ≡ moved_values spec.now (context_of self.old) }
    {
        self.move_pages(pages, spec, name, group);
        self.move_slots(pages, spec, name, group);
        self.move_key(mode_or_copy(spec, Key::Cred), Key::Cred, name, group);
    }

    /// Moves the own pages under share.
    fn move_pages(&mut self, pages: PageNumber, spec: &Items, name: Name, group: &mut GroupRow)
        requires whole { IsWhole pages self.old }
        requires whole_group { IsWholeGroup pages group.old }
        ensures whole { IsWhole pages self.new }
        ensures context { context_of self.new
            ≡ gave (is_below kind.Page pages) name spec.now (context_of self.old) }
        ensures whole_group { IsWholeGroup pages group.new }
        ensures group { group_of group.new
            ≡ took (is_below kind.Page pages) spec.now (context_of self.old) (group_of group.old) }
    {
        for p in 0..pages {
            let key = Key::Page(p);
            self.move_key(mode_or_copy(spec, key), key, name, group);
        }
    }

    /// Moves the own slots under share.
    fn move_slots(&mut self, pages: PageNumber, spec: &Items, name: Name, group: &mut GroupRow)
        requires whole { IsWhole pages self.old }
        requires whole_group { IsWholeGroup pages group.old }
        ensures whole { IsWhole pages self.new }
        ensures context { context_of self.new
            ≡ gave (is_below kind.Slot SLOTS) name spec.now (context_of self.old) }
        ensures whole_group { IsWholeGroup pages group.new }
        ensures group { group_of group.new
            ≡ took (is_below kind.Slot SLOTS) spec.now (context_of self.old) (group_of group.old) }
    {
        for n in 0..SLOTS {
            let key = Key::Slot(n);
            self.move_key(mode_or_copy(spec, key), key, name, group);
        }
    }

    /// Moves the value under a key, if it is the context's own and under share.
    fn move_key(&mut self, mode: Mode, key: Key, name: Name, group: &mut GroupRow)
        requires place { HasKey (vec_len self.old.pages) (vec_len self.old.slots) key }
        requires group_place { HasKey (vec_len group.old.pages) (vec_len group.old.slots) key }
        ensures size { HasSizeOf self.old self.new }
        ensures context { context_of self.new ≡ (if is_moved mode key ((context_of self.old).cell key)
            then with_cell key (Common name) (context_of self.old) else context_of self.old) }
        ensures group_size { HasGroupSizeOf group.old group.new }
        ensures group { group_of group.new ≡ (let cell = (context_of self.old).cell key in
            if is_moved mode key cell then with_value key (moved_value mode key cell) (group_of group.old)
            else group_of group.old) }
    {
        if self.is_moved(mode, key) {
            group.put(self.give(key, name));
        }
    }
}

impl WholeWorld {
    ghost use Rattle.std.specs.FinMap as fm;
    ghost use Rattle.lwc_base.specs.Fresh.{IsNamedGroup};
    ghost use Rattle.lwc_base.specs.Sharing.{needs_group, share};
    ghost use Rattle.lwc_base.specs.World.{change_context, context, is_live, next_group};
    ghost use Rattle.whole_world.specs.Worlds.{HasRoom, seen};
    ghost use Rattle.world_face.specs.Calls.{HasGroupPlace, MayName};

    /// Whether a clone moves a value into a new group.
    #[tactic(auto, unfolding(lwc_base::specs::Sharing::needs_group))]
    pub(crate) fn moves_any(&self, context: Name, spec: &Items) -> bool
        requires { IsTrue (is_live (seen self.now) context) }
        ensures { result ≡ needs_group (seen self.now) context spec.now }
    {
        self.row(context).moves_any(self.page_count(), spec)
    }

    /// Moves a context's own values under share into a new group of the job, if there are any. The only
    /// error is out of memory; that for the row of the group has been taken.
    pub(crate) fn share(&mut self, context: Name, spec: &Items, job: u32) -> Result<(), OutOfMemory>
        requires live { IsTrue (is_live (seen self.old) context) }
        requires within { IsSpec (seen self.old).size.pages spec.now }
        requires may { MayName (seen self.old) job }
        requires group { needs_group (seen self.old) context spec.now ≡ true → HasGroupPlace (seen self.old) }
        requires room { HasRoom self.old.groups }
        ensures shared { OnOk result (seen self.new ≡ share (seen self.old) context job spec.now) }
        ensures err { OnErr result (seen self.new ≡ seen self.old) }
        ensures room { HasRoom self.old.contexts → HasRoom self.new.contexts }
    {
        if self.moves_any(context, spec) {
            let group = GroupRow::new(self.alloc, self.page_count())?;
            self.share_into(context, spec, job, group);
        }
        Ok(())
    }

    /// Moves a context's own values under share into the job's next group, which gets this empty row.
    fn share_into(&mut self, context: Name, spec: &Items, job: u32, mut group: GroupRow)
        requires live { IsTrue (is_live (seen self.old) context) }
        requires within { IsSpec (seen self.old).size.pages spec.now }
        requires needed { needs_group (seen self.old) context spec.now ≡ true }
        requires known { job < (seen self.old).size.jobs }
        requires few { ((seen self.old).next job).groups < 2 ^ 31 }
        requires whole { IsWholeGroup (seen self.old).size.pages group }
        requires empty { group_of group ≡ new_group }
        requires place { HasGroupPlace (seen self.old) }
        requires room { HasRoom self.old.groups }
        ensures world { seen self.new ≡ share (seen self.old) context job spec.now }
        ensures room { HasRoom self.old.contexts → HasRoom self.new.contexts }
    {
        let name = self.next_group(job);
        self.count_group(job);
        self.move_out(context, spec, name, &mut group);
        self.groups.insert(name, group);
    }

    /// Moves a context's own values under share into an empty group, whose name its job has counted.
    fn move_out(&mut self, of_context: Name, spec: &Items, name: Name, group: &mut GroupRow)
        requires within { IsSpec (seen self.old).size.pages spec.now }
        requires counted { IsNamedGroup (seen self.old).next name }
        requires whole { IsWholeGroup (seen self.old).size.pages group.old }
        requires empty { group_of group.old ≡ new_group }
        requires live { IsTrue (is_live (seen self.old) of_context) }
        ensures world { seen self.new
            ≡ change_context (seen self.old) of_context (with_shared name spec.now) }
        ensures room { HasRoom self.old.contexts → HasRoom self.new.contexts }
        ensures group_room { HasRoom self.old.groups → HasRoom self.new.groups }
        ensures whole { IsWholeGroup (seen self.old).size.pages group.new }
        ensures group { group_of group.new ≡ moved_values spec.now (context (seen self.old) of_context) }
    {
        let pages = self.page_count();
        match self.contexts.position(of_context) {
            Some(i) => self.contexts.rows[i]
                .1
                .move_values(pages, spec, name, group),
            None => unreachable!(),
        }
    }
}
