//! Laws of calls where one context is blank: functions with empty bodies, each with a contract that is the
//! law.

ghost use Rattle.std.specs.Prelude.{ℕ, Bool};
ghost use Rattle.lwc_base.specs.Channels.{Channels};
ghost use Rattle.lwc_base.specs.World.{World};
ghost use Rattle.lwc_types.specs.declared.name.Name.{Name};
ghost use Rattle.world_views.specs.Outside.{CallsAlike, IsOutside};

/// A call from another context, with no descriptor that opens the blank one, is the same call where that is
/// blank. An accepted switch to it is no exception.
pub fn calls_from_outside_are_alike()
    ensures { (keep : Bool) (v c : Name) (own t : ℕ) (w : World) (io : Channels) → IsOutside v c own w →
        CallsAlike keep v c own t w io }
{}
