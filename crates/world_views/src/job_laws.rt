//! Laws of what one job sees: functions with empty bodies, each with a contract that is the law.

ghost use Rattle.std.specs.Prelude.{◌≡◌, ◌≢◌, ◌+◌, ◌≤◌, ◌∷◌, ℕ, List, true};
ghost use Rattle.std.specs.List.{Contains, sum_by};
ghost use Rattle.lwc_base.specs.Cells.{value_at};
ghost use Rattle.lwc_base.specs.Frames.{tags_of_context, used};
ghost use Rattle.lwc_base.specs.Fresh.{IsFresh};
ghost use Rattle.lwc_base.specs.Holders.{InContext, IsGroup, Keeps};
ghost use Rattle.lwc_base.specs.Life.{IsReaped, is_among, reap};
ghost use Rattle.lwc_base.specs.World.{Context, World, add_context, context, is_live};
ghost use Rattle.lwc_types.specs.declared.key.Key.{Key};
ghost use Rattle.lwc_types.specs.declared.name.Name.{Name};
ghost use Rattle.world_views.specs.ByJob.{Home, IsValueOf, KeepsJobs, LooksAlike, SameRoots, by_job};
ghost use Rattle.world_views.specs.JobFacts.{AnswersAlike, ChangesAlike, ChangesHidden, ChangesKeepJobs};
ghost use Rattle.world_views.specs.JobFrames.{AreHomes, different, used_by};
ghost use Rattle.world_views.specs.Views.{seen_by, view};

/// What a job asks of its contexts is answered alike in two worlds that look alike to it.
pub fn what_a_job_asks_is_answered_alike()
    ensures { (home : Home) (t s : ℕ) (c : Name) (w v : World) → LooksAlike home c.job t s w v →
        AnswersAlike t s c w v }
{}

/// What a job changes leaves two worlds alike to it, and so does what is dropped where it has the same roots.
pub fn what_a_job_does_leaves_worlds_alike()
    ensures changes { (home : Home) (t s : ℕ) (c : Name) (w v : World) → LooksAlike home c.job t s w v →
        ChangesAlike home t s c w v }
    ensures add { (home : Home) (job t s : ℕ) (w v : World) (x y : Context) → InContext (by_job home) job x →
        InContext (by_job home) job y → seen_by t x ≡ seen_by s y → LooksAlike home job t s w v →
        LooksAlike home job t s (add_context w job x) (add_context v job y) }
    ensures reap { (home : Home) (job t s : ℕ) (w v : World) (roots others : List Name) →
        is_among roots home.name ≡ true → is_among others home.name ≡ true →
        SameRoots job roots others →
        LooksAlike home job t s w v → LooksAlike home job t s (reap w roots) (reap v others) }
    ensures new { (job t s : ℕ) (w v : World) → IsFresh w → IsFresh v →
        w.next job ≡ record { contexts = 0; groups = 0; tags = 0 } → w.next job ≡ v.next job →
        w.size.pages ≡ v.size.pages → view job t w ≡ view job s v }
{}

/// Each job has what is its own, whatever jobs but 0 change, and whatever is dropped but the home.
pub fn each_job_keeps_what_is_its_own()
    ensures changes { (home : Home) (c : Name) (w : World) → c.job ≢ 0 → KeepsJobs home w →
        ChangesKeepJobs home c w }
    ensures add { (home : Home) (job : ℕ) (w : World) (x : Context) → job ≢ 0 →
        InContext (by_job home) job x → KeepsJobs home w → KeepsJobs home (add_context w job x) }
    ensures reap { (home : Home) (w : World) (roots : List Name) → is_among roots home.name ≡ true →
        KeepsJobs home w → KeepsJobs home (reap w roots) }
    ensures value { (home : Home) (c : Name) (k : Key) (w : World) → Keeps (by_job home) w →
        IsValueOf home c.job k (value_at w c k) }
{}

/// No job sees what another one changes, nor what is dropped, where before nothing was left to drop.
pub fn no_job_sees_what_another_one_does()
    ensures changes { (home : Home) (job t : ℕ) (c : Name) (w : World) → c.job ≢ job →
        Keeps (by_job home) w → ChangesHidden job t c w }
    ensures add { (i job t : ℕ) (w : World) (x : Context) → i ≢ job →
        view job t (add_context w i x) ≡ view job t w }
    ensures reap { (home : Home) (job t : ℕ) (w v : World) (roots others : List Name) →
        IsReaped w roots → KeepsJobs home w → KeepsJobs home v →
        SameRoots job roots others →
        view job t v ≡ view job t w → view job t (reap v others) ≡ view job t w }
{}

/// The frames that are used are those of job 0 and those of each other job. A job uses as many in worlds that
/// it sees alike, and job 0 uses those of its home, where each context of job 0 is like that.
pub fn frames_are_those_of_jobs()
    ensures alike { (home : Home) (job t s : ℕ) (w v : World) → job ≢ 0 → KeepsJobs home w →
        KeepsJobs home v → view job t w ≡ view job s v → used_by job w ≡ used_by job v }
    ensures together { (home : Home) (jobs : List ℕ) (w : World) → KeepsJobs home w →
        ((c : Name) → is_live w c ≡ true → Contains (0 ∷ jobs) c.job) →
        ((g : Name) → IsGroup w g → Contains (0 ∷ jobs) g.job) →
        used w ≤ used_by 0 w + sum_by (λ j. used_by j w) jobs }
    ensures apart { (job : ℕ) (w : World) → job ≢ 0 → used_by 0 w + used_by job w ≤ used w }
    ensures homes { (home : Home) (w : World) → KeepsJobs home w → AreHomes home.name w →
        used_by 0 w ≡ different (tags_of_context w.size.pages (context w home.name)) }
{}
