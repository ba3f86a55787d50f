//! Laws of worlds in which one context is blank: functions with empty bodies, each with a contract that is
//! the law.

ghost use Rattle.std.specs.Prelude.{◌≢◌, Bool};
ghost use Rattle.lwc_base.specs.World.{World};
ghost use Rattle.lwc_types.specs.declared.name.Name.{Name};
ghost use Rattle.world_views.specs.BlankFacts.{AsksAlike, BlanksAlike, ChangesAlike};

/// What is asked of another context is answered the same where one context is blank.
pub fn what_is_asked_outside_is_answered_alike()
    ensures { (keep : Bool) (v : Name) (w : World) (c : Name) → c ≢ v → AsksAlike keep v c w }
{}

/// A change of another context is the same change where one context is blank.
pub fn what_is_changed_outside_changes_alike()
    ensures { (keep : Bool) (v : Name) (w : World) (c : Name) → c ≢ v → ChangesAlike keep v c w }
{}

/// What is counted, and what is dropped, is the same where one context is blank.
pub fn what_is_counted_and_dropped_is_alike()
    ensures { (keep : Bool) (v : Name) (w : World) → BlanksAlike keep v w }
{}
