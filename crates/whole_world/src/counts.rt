ghost use Rattle.std.specs.Prelude.{◌≡◌, ◌+◌, ◌<◌, ◌^◌};

use crate::world::WholeWorld;
use lwc_base::{Counters, Name};

impl WholeWorld {
    ghost use Rattle.lwc_base.specs.World.{change_counters, next_context, next_group};
    ghost use Rattle.lwc_base.specs.Fresh.{Rises};
    ghost use Rattle.whole_world.specs.Worlds.{HasRoom, seen};

    /// What a job has counted.
    pub(crate) fn counts_of(&self, job: u32) -> Counters
        requires { job < (seen self.now).size.jobs }
        ensures { (seen self.now).next job ≡ result }
    {
        self.counts[job as usize]
    }

    /// The next name of a job's contexts.
    pub(crate) fn next_context(&self, job: u32) -> Name
        requires { job < (seen self.now).size.jobs }
        ensures { result ≡ next_context (seen self.now) job }
    {
        let k = self.counts_of(job).contexts;
        Name { job, k }
    }

    /// The next name of a job's groups.
    pub(crate) fn next_group(&self, job: u32) -> Name
        requires { job < (seen self.now).size.jobs }
        ensures { result ≡ next_group (seen self.now) job }
    {
        let k = self.counts_of(job).groups;
        Name { job, k }
    }

    /// A job has counted this much, which is no less than before.
    fn set_counts(&mut self, job: u32, counts: Counters)
        requires known { job < (seen self.old).size.jobs }
        requires rises { Rises ((seen self.old).next job) counts }
        ensures world { seen self.new ≡ change_counters (seen self.old) job (λ _. counts) }
        ensures room { HasRoom self.old.contexts → HasRoom self.new.contexts }
        ensures group_room { HasRoom self.old.groups → HasRoom self.new.groups }
    {
        self.counts[job as usize] = counts;
    }

    /// A job counts one more context.
    pub(crate) fn count_context(&mut self, job: u32)
        requires known { job < (seen self.old).size.jobs }
        requires few { ((seen self.old).next job).contexts < 2 ^ 31 }
        ensures world { seen self.new ≡ change_counters (seen self.old) job
            (λ n. record n { contexts = n.contexts + 1 }) }
        ensures room { HasRoom self.old.contexts → HasRoom self.new.contexts }
    {
        let counts = self.counts_of(job);
        let contexts = counts.contexts + 1;
        self.set_counts(job, Counters { contexts, ..counts });
    }

    /// A job counts one more group.
    pub(crate) fn count_group(&mut self, job: u32)
        requires known { job < (seen self.old).size.jobs }
        requires few { ((seen self.old).next job).groups < 2 ^ 31 }
        ensures world { seen self.new ≡ change_counters (seen self.old) job
            (λ n. record n { groups = n.groups + 1 }) }
        ensures room { HasRoom self.old.contexts → HasRoom self.new.contexts }
        ensures group_room { HasRoom self.old.groups → HasRoom self.new.groups }
    {
        let counts = self.counts_of(job);
        let groups = counts.groups + 1;
        self.set_counts(job, Counters { groups, ..counts });
    }

    /// A job counts more tags.
    pub(crate) fn count_tags(&mut self, job: u32, more: u32)
        requires known { job < (seen self.old).size.jobs }
        requires few { ((seen self.old).next job).tags + more < 2 ^ 32 }
        ensures { seen self.new ≡ change_counters (seen self.old) job
            (λ n. record n { tags = n.tags + more }) }
    {
        let counts = self.counts_of(job);
        let tags = counts.tags + more;
        self.set_counts(job, Counters { tags, ..counts });
    }
}
