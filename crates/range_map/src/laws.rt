ghost use Rattle.std.specs.Prelude.{◌≡◌, ◌<◌, ◌≤◌, ℕ, None, Option};
ghost use Rattle.lwc_base.specs.Ranges as base;
ghost use Rattle.lwc_base.specs.World.{Context};
ghost use Rattle.lwc_types.specs.declared.key.Key.TheVariants.{Page};
ghost use Rattle.lwc_types.specs.declared.limits.TheConstants.{MOST_PAGES};
ghost use Rattle.range_map.specs.Kinds.{kind_of, ranges, state_of};
ghost use Rattle.range_map.specs.declared.segment.PageState.{PageState};

/// If the pages of a context have these states, and no page past its last one has a state, the ranges of the
/// context are those of the states.
#[tactic(auto, using(crate::proofs::Ranges::ranges_of_context))]
pub fn ranges_are_those_of_the_context()
    ensures { (pages : ℕ) (x : Context) (states : ℕ → Option PageState) → pages ≤ MOST_PAGES
        → ((p : ℕ) → p < pages → state_of (kind_of (x.cell (Page p))) (x.right p) ≡ states p)
        → ((p : ℕ) → pages ≤ p → p < MOST_PAGES → states p ≡ None)
        → base.ranges pages x ≡ ranges MOST_PAGES states }
{}

/// Two functions that give the pages the same states have the same number of ranges.
#[tactic(auto, using(crate::proofs::Ranges::ranges_same))]
pub fn ranges_go_by_states()
    ensures { (f g : ℕ → Option PageState) (pages : ℕ) → ((p : ℕ) → p < pages → f p ≡ g p)
        → ranges pages f ≡ ranges pages g }
{}
