//! The table that the seats share, its rule, and what each kind of step tells.
use crate::states::Turned;
use crate::views::View;
use atomic_table::{Join, Play, Seat, Shared, Split, Table, TableRule};
use std::alloc::Global;
use std::snapshot::Snapshot;

/// The word that counts the tickets drawn.
pub(crate) const NEXT: usize = 0;

/// The word that counts the turns passed on.
pub(crate) const SERVING: usize = 1;

/// The slot where the state lies between turns.
pub(crate) const STATE: usize = 0;

pub struct Queue;

impl<S: Turned> TableRule<Option<S>, View<S::Name>, Snapshot<S>> for Queue {
    ghost use Rattle.turnstile.specs.Rule.{Holds, first_view};

    ghost holds = { λ key. Holds S.name S.past (S.name key.value) };

    ghost first = { λ key. first_view (S.name key.value) };
}

pub type LockShared<S> = Shared<Option<S>, View<<S as Turned>::Name>, Snapshot<S>, Queue>;

pub type LockTable<S> = Table<Option<S>, View<<S as Turned>::Name>, Snapshot<S>, Queue, Global>;

pub type LockSeat<S> = Seat<Option<S>, View<<S as Turned>::Name>>;

pub(crate) struct DrawTicket;

impl<S: Turned> Play<Option<S>, View<S::Name>> for DrawTicket {
    ghost use Rattle.turnstile.specs.Steps.{DrawsTicket};

    ghost then = { DrawsTicket };
}

pub(crate) struct Look;

impl<S: Turned> Play<Option<S>, View<S::Name>> for Look {
    ghost use Rattle.turnstile.specs.Steps.{Looks};

    ghost then = { λ _. Looks S.name S.past };
}

pub(crate) struct PassOn;

impl<S: Turned> Play<Option<S>, View<S::Name>> for PassOn {
    ghost use Rattle.turnstile.specs.Steps.{PassesOn};

    ghost then = { λ _ m _ m'. PassesOn S.past m m' };
}

pub(crate) struct SplitSeat;

impl<N> Split<View<N>> for SplitSeat {
    ghost use Rattle.turnstile.specs.Steps.{kept_view, new_view};

    ghost left = { kept_view };

    ghost right = { new_view };
}

pub(crate) struct JoinSeat;

impl<N> Join<View<N>> for JoinSeat {
    ghost use Rattle.turnstile.specs.Steps.{joined_view, spent_view};

    ghost both = { joined_view };

    ghost spent = { spent_view };
}
