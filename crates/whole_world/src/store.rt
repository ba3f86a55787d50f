ghost use Rattle.std.specs.Prelude.{◌≡◌, ◌-◌, ◌<◌, ◌≤◌, ◌^◌, IfOk, IsTrue, count_by};

use crate::pages::new_value;
use crate::world::WholeWorld;
use lwc_base::{Name, OutOfMemory, PageNumber, PageValue, Range, Tag};

impl WholeWorld {
    ghost use Rattle.std.specs.List.{range_with_len};
    ghost use Rattle.lwc_base.specs.Frames.{is_parting};
    ghost use Rattle.lwc_base.specs.Store.{stored_pages, page_value_at};
    ghost use Rattle.lwc_base.specs.World.{is_live};
    ghost use Rattle.whole_world.specs.Worlds.{seen};

    /// The number of pages that a store to some pages parts.
    #[tactic(auto, using(lwc_types::proofs::Small::count_of_range))]
    pub(crate) fn parting_count(&self, context: Name, pages: Range) -> usize
        requires { IsTrue (is_live (seen self.now) context) }
        ensures parting { result ≡ count_by (λ p. is_parting (seen self.now) (page_value_at
            (seen self.now) context p))
            (range_with_len pages.from (pages.to - pages.from)) }
        ensures few { result ≤ pages.to - pages.from }
    {
        (pages.from..pages.to)
            .filter(|p| self.is_parting(context, *p))
            .count()
    }

    /// The new value of each page that a piece touches. The only error is out of memory.
    pub(crate) fn stored_pages(
        &self,
        context: Name,
        at: usize,
        piece: &[u8],
        job: u32,
        pages: Range,
    ) -> Result<Vec<(PageNumber, PageValue)>, OutOfMemory>
        requires live { IsTrue (is_live (seen self.now) context) }
        requires job { job < (seen self.now).size.jobs }
        requires counted { ((seen self.now).next job).tags < 2 ^ 31 }
        ensures { IfOk result (λ values. values.items
            ≡ stored_pages (seen self.now) context job (record { at = at; bytes = piece.now })
            ((seen self.now).next job).tags (range_with_len pages.from (pages.to - pages.from))) }
    {
        let mut k = self.counts_of(job).tags;
        let mut values = Vec::new(self.alloc);
        for p in pages.from..pages.to {
            let parting = self.is_parting(context, p);
            let value = new_value(
                self.alloc,
                parting,
                Tag { job, k },
                p,
                at,
                piece,
                self.page_value(context, p),
            )?;
            values.push((p, value))?;
            k += u32::from(parting);
        }
        Ok(values)
    }
}
