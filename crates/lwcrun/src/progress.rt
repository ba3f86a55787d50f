//! How far a run is, on one line of a terminal.

ghost use Rattle.std.specs.Prelude.{◌≡◌};

use lwc_io::{Failed, Gate, Sink};
use std::io::IsTerminal;
use std::marker::Model;
use std::sync::Wait;
use std::sync::atomic::{AtomicBool, AtomicU64, Ordering};
use std::time::Instant;

/// How many turns are made from one look at the clock to the next.
const TURNS_A_LOOK: u64 = 256;

/// The last tenth of a second in which no line is shown, counted from 0 on.
const QUIET_TENTHS: u64 = 9;

/// A gate at which nobody waits. Where standard error is a terminal it counts the turns to which threads came, and
/// once a second has passed it shows their number there, at most once in each tenth of a second.
#[derive(Drop)]
pub struct Progress {
    rt: HostRuntime,
    // When the program began, where standard error is a terminal and there is a clock.
    start: Option<Instant>,
    turns: AtomicU64,
    // The tenth of a second from the start in which the line was shown last; at first `QUIET_TENTHS`.
    tenth: AtomicU64,
    is_shown: AtomicBool,
}

impl Progress {
    /// The progress of a run that has made no turn.
    pub fn new(rt: HostRuntime) -> Self {
        let start = if rt.stderr().is_terminal() {
            Instant::now(&rt).ok()
        } else {
            None
        };
        Progress {
            rt,
            start,
            turns: AtomicU64::new(0),
            tenth: AtomicU64::new(QUIET_TENTHS),
            is_shown: AtomicBool::new(false),
        }
    }

    /// Clears the line, if it is shown.
    fn clear(&self) {
        if self.is_shown.swap(false, Ordering::SeqCst) {
            let _ = eprint!(self.rt; "\r\x1b[K");
        }
    }

    /// Counts a turn, and shows the number of those before it if that is due.
    fn count_turn(&self, start: Instant) {
        let turns = self.turns.fetch_add(1, Ordering::SeqCst);
        if turns % TURNS_A_LOOK == 0 && self.enter_tenth(start) {
            self.is_shown.store(true, Ordering::SeqCst);
            let _ = eprint!(self.rt; "\r\x1b[Klwcrun: {turns} turns");
        }
    }

    /// Notes which tenth of a second it is. Says whether the line may be shown in it, and nobody noted it
    /// before.
    fn enter_tenth(&self, start: Instant) -> bool {
        let Ok(elapsed) = start.elapsed(&self.rt) else {
            return false;
        };
        let now = u64::try_from(elapsed.as_millis() / 100).unwrap_or(0);
        let last = self.tenth.load(Ordering::SeqCst);
        last < now
            && self
                .tenth
                .compare_exchange(last, now, Ordering::SeqCst, Ordering::SeqCst)
                .is_ok()
    }
}

impl Gate for Progress {
    /// Returns at once.
    fn before<R: Wait>(&self, _rt: &R, _thread: u32, _turn: u64) {
        if let Some(start) = self.start {
            self.count_turn(start);
        }
    }

    /// It never waits.
    fn may_wait(&self) -> bool {
        false
    }
}

/// A sink that clears the line of the progress before it is written to, since it may be on the same terminal.
#[derive(Drop)]
pub struct ClearingSink<'a, S> {
    progress: &'a Progress,
    sink: S,
}

impl<'a, S> Model for ClearingSink<'a, S> {
    ghost Value = { S };

    ghost view = { λ clearing. clearing.sink };
}

impl<'a, S: Sink> ClearingSink<'a, S> {
    /// This sink, below that line.
    pub fn new(progress: &'a Progress, sink: S) -> Self
        ensures { result ≡ sink }
    {
        ClearingSink { progress, sink }
    }
}

impl<S: Sink> Sink for ClearingSink<'_, S> {
    ghost seen = { S.seen };

    /// Writes as the sink does.
    fn write(&mut self, piece: &[u8]) -> Result<usize, Failed> {
        self.progress.clear();
        self.sink.write(piece)
    }
}
