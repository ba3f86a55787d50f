ghost use Rattle.std.specs.Prelude.{◌≡◌, ◌<◌, ◌+◌, if◌then◌else◌, ℕ, None};
ghost use Rattle.lwc_base.specs.Ranges.{begins_range, ranges};
ghost use Rattle.lwc_base.specs.Runs.{IsOneRun};
ghost use Rattle.lwc_base.specs.World.{Context};
ghost use Rattle.lwc_base.specs.declared.cell.Cell.TheVariants.{Own};
ghost use Rattle.lwc_types.specs.declared.key.Key.TheVariants.{Page};

/// Present pages that are one run are one range, where no page is present there is no range, and each further
/// page adds the range that begins at it.
pub fn one_run_is_one_range()
    ensures one { (pages from to : ℕ) (x : Context) → IsOneRun pages from to x → ranges pages x ≡ 1 }
    ensures none { (pages : ℕ) (x : Context) →
        ((p : ℕ) → p < pages → x.cell (Page p) ≡ Own None) → ranges pages x ≡ 0 }
    ensures next { (pages : ℕ) (x : Context) →
        ranges (pages + 1) x ≡ ranges pages x + (if begins_range x pages then 1 else 0) }
{}
