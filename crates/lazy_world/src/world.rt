ghost use Rattle.std.specs.Prelude.{◌≡◌, ◌+◌, IfOk, None, length, replicate};
ghost use Rattle.std.specs.FinMap as fm;
ghost use Rattle.std.proofs.Props.{props};
ghost use Rattle.ctx_table.specs.NameTables.{ArePlaced};
ghost use Rattle.world_face.specs.Calls.{IsSize};
ghost use Rattle.lazy_world.specs.Seen.{count, frame_count, node_steps, rights, rows};
ghost use Rattle.lazy_world.specs.Sound.{IsSound, named_cell-prop};
ghost use Rattle.lwc_base.specs.World.{nothing_counted};

use crate::places::Places;
use crate::registers::Registers;
use ctx_table::Names;
use late_rows::LateRows;
use lwc_base::{Counters, OutOfMemory, WorldSize};
use std::alloc::Global;

/// A world whose contexts and groups share pages and descriptors. The context at place i of `contexts`
/// has its cells and registers at place i, and the group at place j of `groups` has its values at the
/// place j behind the last context's. After `open` no call takes memory. It stands for `seen`.
#[derive(Drop)]
pub struct PlacedWorld {
    pub(crate) size: WorldSize,
    pub(crate) places: Places,
    pub(crate) registers: LateRows<Registers>,
    pub(crate) contexts: Names,
    pub(crate) groups: Names,
    pub(crate) counts: Vec<Counters>,
    ghost placed: { ArePlaced contexts },
    ghost placed_groups: { ArePlaced groups },
    ghost count: { count places ≡ size.contexts + size.groups },
    ghost frames: { frame_count places ≡ size.frames },
    ghost sound: { IsSound (record {
      size = size;
      rows = rows places;
      rights = rights places;
      registers = registers;
      contexts = contexts;
      groups = groups;
      counts = counts.items;
    }) } by { Prim.hlevel (props, named_cell-prop) },
}

/// What the jobs have counted before they have named anything. The only error is out of memory.
fn nothing_counted(alloc: Global, jobs: u32) -> Result<Vec<Counters>, OutOfMemory>
    ensures { IfOk result (λ counts. counts.items ≡ replicate jobs nothing_counted) }
{
    let nothing = Counters {
        contexts: 0,
        groups: 0,
        tags: 0,
    };
    Ok(vec![in alloc; nothing; jobs as usize]?)
}

/// The registers of the contexts of a world of this size, and what its jobs have counted, before any has named
/// anything. The only error is out of memory.
fn nothing_kept(
    alloc: Global,
    size: &WorldSize,
) -> Result<(LateRows<Registers>, Vec<Counters>), OutOfMemory>
    requires { IsSize size.now }
    ensures registers { IfOk result (λ kept. length kept.0 ≡ size.now.contexts) }
    ensures counts { IfOk result (λ kept. kept.1.items ≡ replicate size.now.jobs nothing_counted) }
{
    let registers = LateRows::open(alloc, size.contexts)?;
    let counts = nothing_counted(alloc, size.jobs)?;
    Ok((registers, counts))
}

/// No names of contexts and none of groups, with the places that a world of this size has for them. The only
/// error is out of memory.
fn no_names(alloc: Global, size: &WorldSize) -> Result<(Names, Names), OutOfMemory>
    requires { IsSize size.now }
    ensures contexts { IfOk result (λ names.
        names.0 ≡ record { map = fm.empty; places = replicate size.now.contexts None }) }
    ensures groups { IfOk result (λ names.
        names.1 ≡ record { map = fm.empty; places = replicate size.now.groups None }) }
    ensures placed { IfOk result (λ names. ArePlaced names.0) }
    ensures placed_groups { IfOk result (λ names. ArePlaced names.1) }
{
    let contexts = Names::open(alloc, size.contexts)?;
    let groups = Names::open(alloc, size.groups)?;
    Ok((contexts, groups))
}

impl PlacedWorld {
    ghost use Rattle.lwc_base.specs.World.{empty_world};
    ghost use Rattle.lazy_world.specs.Worlds.{seen};

    /// A world of this size in which nothing is live. The only error is out of memory.
    pub(crate) fn open(alloc: Global, world_size: &WorldSize) -> Result<PlacedWorld, OutOfMemory>
        requires { IsSize world_size.now }
        ensures world { IfOk result (λ w. seen w ≡ empty_world world_size.now) }
        ensures no_step { IfOk result (λ w. node_steps w.places ≡ 0) }
    {
        let (registers, counts) = nothing_kept(alloc, world_size)?;
        let (contexts, groups) = no_names(alloc, world_size)?;
        let size = *world_size;
        let places = Places::open(alloc, size.frames, size.contexts + size.groups)?;
        Ok(PlacedWorld {
            size,
            places,
            registers,
            contexts,
            groups,
            counts,
        })
    }
}
