//! What a turnstile may guard.
ghost use Rattle.std.specs.Prelude.{ℕ, List, length, ◌<◌, ◌^◌};

/// A state that knows its past: which passes had a turn, in order.
pub trait Turned: Drop + Send + Sync {
    /// Plain data that tells the state from others of its type. Contracts alone speak of it.
    type Name;

    // The state's name, which no turn changes.
    ghost name: { Self → Self.Name };

    // The numbers of the passes that had a turn, the first turn first.
    ghost past: { Self → List ℕ };

    // So no count of turns reaches the end of its type.
    ghost short: { (x : Self) → length (past x) < 2 ^ 63 };
}
