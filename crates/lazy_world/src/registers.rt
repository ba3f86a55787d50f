ghost use Rattle.std.specs.Prelude.{◌≡◌, ◌<◌, None, Some, length, replicate, slice_index_or, slice_set};

use late_rows::Fresh;
use lwc_base::Regs;
use std::marker::Model;

/// The registers of a context: those that it begins with, and those that it keeps for each thread. Only what
/// is marked as kept is there, so that a new context writes none of the others.
#[derive(Drop)]
pub struct Registers {
    entry: Regs,
    saved: [Regs; 16],
    kept: [bool; 16],
}

impl Model for Registers {
    ghost use Rattle.lazy_world.specs.Registers.{KeptRegisters};

    ghost Value = { KeptRegisters };

    ghost use Rattle.std.specs.Prelude.{None, Some, false, if◌then◌else◌, map, slice_index_or};
    ghost use Rattle.std.specs.List.{range_with_len};
    ghost use Rattle.lwc_types.specs.Registers.{fresh_registers};

    ghost view = { λ r. record {
      entry = r.entry;
      saved = map (λ t. if slice_index_or r.kept t false
          then Some (slice_index_or r.saved t (fresh_registers 0)) else None) (range_with_len 0 16);
    } };

    ghost use Rattle.std.specs.Prelude.{◌≡◌, length};

    ghost invariant = { λ r. record { saved : length r.saved ≡ 16; kept : length r.kept ≡ 16 } };
}

impl Fresh for Registers {
    ghost use Rattle.lwc_types.specs.Registers.{fresh_registers};

    ghost fresh = { record { entry = fresh_registers 0; saved = replicate 16 None } };

    /// The registers of a context before it has any.
    fn fresh() -> Registers {
        let entry = Regs::fresh(0);
        Registers {
            entry,
            saved: [entry; 16],
            kept: [false; 16],
        }
    }
}

impl Registers {
    /// Lets them be those of a context that begins with these, and keeps none for any thread.
    pub fn begin(&mut self, entry: &Regs)
        ensures { self.new ≡ record { entry = entry.now; saved = replicate 16 None } }
    {
        self.entry = *entry;
        self.kept = [false; 16];
    }

    /// Those that the context begins with.
    pub fn entry(&self) -> Regs
        ensures { result ≡ self.now.entry }
    {
        self.entry
    }

    /// Those that the context keeps for a thread; `None` if it keeps none for it.
    pub fn saved(&self, thread: u32) -> Option<Regs>
        requires { thread < 16 }
        ensures { result ≡ slice_index_or self.now.saved thread None }
    {
        if self.kept[thread as usize] {
            Some(self.saved[thread as usize])
        } else {
            None
        }
    }

    /// Keeps registers for a thread, in place of those that were kept for it.
    pub fn save(&mut self, thread: u32, regs: &Regs)
        requires { thread < 16 }
        ensures inside { thread < length self.old.saved }
        ensures saved { self.new ≡ record {
          entry = self.old.entry;
          saved = slice_set self.old.saved thread (Some regs.now);
        } }
    {
        self.saved[thread as usize] = *regs;
        self.kept[thread as usize] = true;
    }
}
