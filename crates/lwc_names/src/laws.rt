//! Laws of numbers: functions with empty bodies, each with a contract that is the law.

ghost use Rattle.std.specs.Option.{option_map};
ghost use Rattle.std.specs.Prelude.{◌≡◌, ◌≤◌, ◌++◌, ℕ, List};
ghost use Rattle.guest_image.specs.declared.image.Image.{Image};
ghost use Rattle.kernel_core.specs.Machine.{Machine};
ghost use Rattle.kernel_core.specs.Runs.{run};
ghost use Rattle.kernel_core.specs.Step.{step};
ghost use Rattle.lwc_types.specs.Names.{name_cmp, tag_cmp};
ghost use Rattle.lwc_types.specs.declared.name.Name.{Name};
ghost use Rattle.lwc_types.specs.declared.name.Tag.{Tag};
ghost use Rattle.lwc_names.specs.Machines.{EachActsForItsJob, shifted_machine};
ghost use Rattle.lwc_names.specs.Numbered.{numbered};
ghost use Rattle.lwc_names.specs.Shifts.{shifted_name, shifted_tag};
ghost use Rattle.request_isolation.specs.Alone.{alone, start_alone};
ghost use Rattle.request_isolation.specs.Needs.{extra, greatest_extra, most_used};

/// Names and tags keep their order under other numbers.
pub fn names_keep_their_order()
    ensures names { (r : ℕ) (a b : Name) → name_cmp (shifted_name r a) (shifted_name r b) ≡ name_cmp a b }
    ensures tags { (r : ℕ) (a b : Tag) → tag_cmp (shifted_tag r a) (shifted_tag r b) ≡ tag_cmp a b }
{}

/// A step does the same under other numbers, if each running thread acts for a job other than 0; and that stays
/// so. So a run does the same, and takes as many frames.
pub fn steps_are_the_same_under_other_numbers()
    ensures step { (r : ℕ) (m : Machine) (t : ℕ) → EachActsForItsJob m →
        step (shifted_machine r m) t ≡ shifted_machine r (step m t) }
    ensures run { (r : ℕ) (m : Machine) (steps : List ℕ) → EachActsForItsJob m →
        run (shifted_machine r m) steps ≡ shifted_machine r (run m steps) }
    ensures frames { (r : ℕ) (m : Machine) (steps : List ℕ) → EachActsForItsJob m →
        most_used (shifted_machine r m) steps ≡ most_used m steps }
    ensures acts { (m : Machine) (t : ℕ) → EachActsForItsJob m → EachActsForItsJob (step m t) }
{}

/// A request by itself starts as request 0 with the same bytes does, under other numbers; and no thread runs
/// then.
pub fn a_request_alone_starts_as_request_0()
    ensures start { (image : Image) (frames budget r : ℕ) (bytes : List ℕ) →
        start_alone image frames budget r bytes
        ≡ shifted_machine r (start_alone image frames budget 0 bytes) }
    ensures acts { (image : Image) (frames budget : ℕ) (bytes : List ℕ) →
        EachActsForItsJob (start_alone image frames budget 0 bytes) }
{}

/// The status and the bytes that a request is replied by itself, and the frames that it takes, depend on the
/// image, the budget and the request's bytes alone: they are those of request 0 with the same bytes. So none of
/// a part of some requests takes more frames, served as requests from 0 on, than one of all of them does.
pub fn numbers_do_not_matter()
    ensures reply { (image : Image) (budget r : ℕ) (bytes : List ℕ) →
        alone image budget r bytes ≡ option_map (numbered r) (alone image budget 0 bytes) }
    ensures frames { (image : Image) (budget r : ℕ) (bytes : List ℕ) →
        extra image budget r bytes ≡ extra image budget 0 bytes }
    ensures part { (image : Image) (budget : ℕ) (before part after : List (List ℕ)) →
        greatest_extra image budget 0 part ≤ greatest_extra image budget 0 (before ++ (part ++ after)) }
{}
