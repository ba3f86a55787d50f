ghost use Rattle.std.specs.Prelude.{◌≡◌, ◌<◌, ◌==◌, ◌&&◌, false, IfOk};
ghost use Rattle.std.specs.List.{find, list_any, position_or_len};
ghost use Rattle.std.specs.Ordering.{is_gt};
ghost use Rattle.std.specs.FinMap as fm;
ghost use Rattle.lwc_base.specs.World as worlds;
ghost use Rattle.lwc_types.specs.Names.{name_cmp};
ghost use Rattle.lwc_types.specs.declared.limits.TheConstants.{MOST_CONTEXTS};
ghost use Rattle.lwc_monitor.specs.Traps.{is_monitor, is_trapped};

use crate::live::is_live;
use lwc_base::{MOST_CONTEXTS, Name, OutOfMemory};
use std::alloc::Global;
use std::marker::Model;
use world_face::World;

/// Which contexts are trapped, each with its monitor, in the order of names. They are seen as a map, and have room
/// for as many as there may be contexts.
#[derive(Drop)]
pub struct Traps {
    pairs: Vec<(Name, Name)>,
}

impl Model for Traps {
    ghost use Rattle.std.specs.Prelude.{◌≤◌, T, vec_capacity};
    ghost use Rattle.std.specs.FinMap as fm;
    ghost use Rattle.lwc_types.specs.Names.{name_cmp};
    ghost use Rattle.lwc_types.specs.declared.limits.TheConstants.{MOST_CONTEXTS};
    ghost use Rattle.lwc_monitor.specs.Traps as spec;

    ghost Value = { spec.Traps };

    ghost coded = { spec.traps_code };

    ghost view = { λ traps. fm.from_sorted traps.pairs.items };

    ghost invariant = { λ traps. T (fm.is_sorted name_cmp traps.pairs.items)
        × (MOST_CONTEXTS ≤ vec_capacity traps.pairs) };
}

impl Traps {
    /// No traps. The only error is out of memory: this is the only call that takes any.
    pub fn new(alloc: Global) -> Result<Traps, OutOfMemory>
        ensures { IfOk result (λ traps. traps ≡ fm.empty) }
    {
        let pairs = Vec::with_capacity(alloc, MOST_CONTEXTS as usize)?;
        Ok(Traps { pairs })
    }

    /// The monitor of a context, if it is trapped.
    pub fn monitor_of(&self, context: Name) -> Option<Name>
        ensures { result ≡ fm.get self.now context }
    {
        match pair_of(self.pairs.as_slice(), context) {
            Some(pair) => Some(pair.1),
            None => None,
        }
    }

    /// Whether a context is the monitor of a trapped one.
    pub fn has_monitor(&self, context: Name) -> bool
        ensures { result ≡ is_monitor self.now context }
    {
        is_second(self.pairs.as_slice(), context)
    }

    /// The trapped contexts, each with its monitor, in the order of names.
    pub fn pairs(&self) -> &[(Name, Name)]
        ensures { result.now ≡ fm.entries self.now }
    {
        self.pairs.as_slice()
    }

    /// Traps a context that is not trapped yet, where fewer are than there may be contexts.
    pub fn trap(&mut self, context: Name, monitor: Name)
        requires free { is_trapped self.old context ≡ false }
        requires room { fm.len self.old < MOST_CONTEXTS }
        ensures { self.new ≡ fm.insert self.old context monitor }
    {
        let place = place_for(self.pairs.as_slice(), context);
        self.pairs.insert(place, (context, monitor)).unwrap();
    }

    /// Keeps the traps of live contexts alone.
    pub fn keep_live<W: World>(&mut self, world: &W)
        ensures { self.new ≡ fm.retain_keys self.old (worlds.is_live (W.seen world.now)) }
    {
        self.pairs.retain(|pair| is_live(world, pair.0));
    }
}

/// The first of some pairs that begins with this name.
fn pair_of(pairs: &[(Name, Name)], context: Name) -> Option<(Name, Name)>
    ensures { result ≡ find (λ pair. pair.0.job == context.job && pair.0.k == context.k) pairs.now }
{
    pairs.iter().copied().find(|pair| pair.0 == context)
}

/// Whether one of some pairs ends with this name.
fn is_second(pairs: &[(Name, Name)], context: Name) -> bool
    ensures { result ≡ list_any (λ pair. pair.1.job == context.job && pair.1.k == context.k) pairs.now }
{
    pairs.iter().any(|pair| pair.1 == context)
}

/// Where a pair goes that begins with this name: before the first one that begins with a higher name.
fn place_for(pairs: &[(Name, Name)], context: Name) -> usize
    ensures { result ≡ position_or_len (λ pair. is_gt (name_cmp pair.0 context)) pairs.now }
{
    pairs
        .iter()
        .position(|pair| pair.0 > context)
        .unwrap_or(pairs.len())
}
