ghost use Rattle.std.specs.Prelude.{◌≡◌, ◌<◌, ◌==◌, ◌&&◌, IfOk, false, not, slice_get};
ghost use Rattle.std.specs.Option.{option_map_or};
ghost use Rattle.std.specs.List.{find, position_or_len};
ghost use Rattle.std.specs.Ordering.{is_lt};
ghost use Rattle.std.specs.FinMap as fm;
ghost use Rattle.lwc_base.specs.World as worlds;
ghost use Rattle.lwc_types.specs.Names.{name_cmp};
ghost use Rattle.lwc_types.specs.declared.limits.TheConstants.{MOST_CONTEXTS};

use crate::guard::Guard;
use lwc_base::{MOST_CONTEXTS, Name, OutOfMemory};
use lwc_monitor::live::is_live;
use std::alloc::Global;
use std::marker::Model;
use world_face::World;

/// Which contexts are guarded, each with its guard, in the order of names. They are seen as a map, and have room for
/// as many as there may be contexts.
#[derive(Drop)]
pub struct Guards {
    rows: Vec<(Name, Guard)>,
}

impl Model for Guards {
    ghost use Rattle.std.specs.Prelude.{◌≤◌, T, vec_capacity};
    ghost use Rattle.std.specs.FinMap as fm;
    ghost use Rattle.lwc_types.specs.Names.{name_cmp};
    ghost use Rattle.lwc_types.specs.declared.limits.TheConstants.{MOST_CONTEXTS};
    ghost use Rattle.lwc_guard.specs.Guards as spec;

    ghost Value = { spec.Guards };

    ghost coded = { spec.guards_code };

    ghost view = { λ guards. fm.from_sorted guards.rows.items };

    ghost invariant = { λ guards. T (fm.is_sorted name_cmp guards.rows.items)
        × (MOST_CONTEXTS ≤ vec_capacity guards.rows) };
}

impl Guards {
    /// No guards. The only error is out of memory: this is the only call that takes any.
    pub fn new(alloc: Global) -> Result<Guards, OutOfMemory>
        ensures { IfOk result (λ guards. guards ≡ fm.empty) }
    {
        let rows = Vec::with_capacity(alloc, MOST_CONTEXTS as usize)?;
        Ok(Guards { rows })
    }

    /// The guard of a context, if it is guarded.
    pub fn guard_of(&self, context: Name) -> Option<Guard>
        ensures { result ≡ fm.get self.now context }
    {
        match row_of(self.rows.as_slice(), context) {
            Some(row) => Some(row.1),
            None => None,
        }
    }

    /// Gives a context this guard in place of the one that it has, where fewer are guarded than there may be contexts.
    pub fn set(&mut self, context: Name, guard: Guard)
        requires room { fm.len self.old < MOST_CONTEXTS }
        ensures { self.new ≡ fm.insert self.old context guard }
    {
        let place = place_for(self.rows.as_slice(), context);
        if is_there(self.rows.as_slice(), place, context) {
            self.rows[place] = (context, guard);
        } else {
            self.rows.insert(place, (context, guard)).unwrap();
        }
    }

    /// Keeps the guards of live contexts alone.
    pub fn keep_live<W: World>(&mut self, world: &W)
        ensures { self.new ≡ fm.retain_keys self.old (worlds.is_live (W.seen world.now)) }
    {
        self.rows.retain(|row| is_live(world, row.0));
    }
}

/// The first of some rows that begins with this name.
fn row_of(rows: &[(Name, Guard)], context: Name) -> Option<(Name, Guard)>
    ensures { result ≡ find (λ row. row.0.job == context.job && row.0.k == context.k) rows.now }
{
    rows.iter().copied().find(|row| row.0 == context)
}

/// Whether a place has a row that begins with this name.
fn is_there(rows: &[(Name, Guard)], place: usize, context: Name) -> bool
    ensures { result
        ≡ option_map_or (λ row. row.0.job == context.job && row.0.k == context.k) (slice_get rows.now place) false }
{
    match rows.get(place) {
        Some(row) => row.0 == context,
        None => false,
    }
}

/// Where the row of a name is, or goes: the first place of a row that does not begin with a lower name.
fn place_for(rows: &[(Name, Guard)], context: Name) -> usize
    ensures { result ≡ position_or_len (λ row. not (is_lt (name_cmp row.0 context))) rows.now }
{
    rows.iter()
        .position(|row| row.0 >= context)
        .unwrap_or(rows.len())
}
