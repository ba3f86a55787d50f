//! The turns that a thread makes in one stay inside the lock.
ghost use Rattle.std.specs.Prelude.{◌≡◌, ◌≤◌, ◌<◌, false, true, if◌then◌else◌, None, Some, slice_get};
ghost use Rattle.std.specs.Option.{option_map};
ghost use Rattle.guest_machine.specs.Advances.{advanced};
ghost use Rattle.lwc_types.specs.declared.fault.ThreadStatus.TheVariants.{Running};
ghost use Rattle.process_core.specs.Running.{AreAdvances, AreInRow, NotesTurn, left_by, offered};
ghost use Rattle.process_core.specs.declared.stay.TheConstants.{MOST_TURNS};

use guest_isa::{Op, Text};
use guest_machine::{Advance, Next, advance, run_on};
use kernel_core::Turn;
use lwc_base::{Regs, ThreadStatus};
use std::marker::Model;

/// The most turns of one stay.
pub(crate) const MOST_TURNS: usize = 32;

/// The most proposals of one stay.
const MOST_PROPOSALS: usize = 8;

/// How many instructions are looked at to tell whether a shared one comes soon.
const LOOKS: u32 = 6;

/// A thread's stays inside the lock of its process, one after another, each of one turn or of several. It keeps the
/// proposals of the first turns of a stay, which are made before it.
///
/// Contracts see it as `Staying`: the most turns of a stay, how many of this one were made, and the proposals.
#[derive(Drop)]
pub struct Stay {
    turns: usize,
    // 0 where the thread is outside.
    made: usize,
    // An advance is long to copy, so it is made in its place, and read there under the lock.
    count: usize,
    places: [Advance; MOST_PROPOSALS],
}

impl Model for Stay {
    ghost use Rattle.std.specs.Prelude.{◌≤◌, ◌<◌};
    ghost use Rattle.process_core.specs.Running.{Staying};
    ghost use Rattle.process_core.specs.declared.stay.TheConstants.{MOST_TURNS};

    ghost Value = { Staying };

    ghost view = { λ s. record {
      turns = s.turns;
      made = s.made;
      count = s.count;
      places = s.places;
    } };

    ghost invariant = { λ s. (s.turns ≤ MOST_TURNS) × (s.made < s.turns) × (s.count ≤ 8) };
}

impl Stay {
    /// A place for the stays of a thread that runs this text, each of several turns, or of one where it is to be short.
    #[tactic(auto, unfolding(guest_machine::specs::Advances::advanced))]
    pub fn new(text: &Text, is_short: bool) -> Stay
        ensures turns { result.turns ≡ (if is_short then 1 else MOST_TURNS) }
        ensures outside { result.made ≡ 0 }
        ensures none { offered result ≡ None }
        ensures fits { AreAdvances text.now result.places }
    {
        let first = advance(text, &Regs::fresh(0));
        Stay {
            turns: if is_short { 1 } else { MOST_TURNS },
            made: 0,
            count: 0,
            places: [first; MOST_PROPOSALS],
        }
    }

    /// Whether the thread is inside.
    pub(crate) fn is_inside(&self) -> bool
        ensures inside { result ≡ true → 0 < self.now.made }
        ensures outside { result ≡ false → self.now.made ≡ 0 }
    {
        self.made > 0
    }

    /// The proposal of the next turn, if there is one.
    pub(crate) fn proposal(&self) -> Option<&Advance>
        ensures { option_map (λ a. a.now) result ≡ offered self.now }
    {
        self.places[..self.count].get(self.made)
    }

    /// Prepares a stay without proposals.
    pub(crate) fn prepare_alone(&mut self)
        ensures none { offered self.new ≡ None }
        ensures kept { self.new ≡ record self.old { count = 0 } }
    {
        self.count = 0;
    }

    /// Prepares the stay of a thread that its last turn left like this. A thread that runs proposes the advance of its
    /// registers, and goes on from those that the step leaves as long as they rest on the text alone.
    #[inline(never)]
    pub(crate) fn prepare(&mut self, text: &Text, last: &Turn)
        requires fits { AreAdvances text.now self.old.places }
        ensures turns { self.new.turns ≡ self.old.turns }
        ensures made { self.new.made ≡ self.old.made }
        ensures first { self.old.made ≡ 0 → last.now.status ≡ Running →
            offered self.new ≡ Some (advanced text.now last.now.regs) }
        ensures row { AreInRow self.new.count self.new.places }
        ensures fits { AreAdvances text.now self.new.places }
    {
        self.count = 0;
        if last.status == ThreadStatus::Running {
            self.count = propose(text, &last.regs, self.turns, &mut self.places);
        }
    }

    /// Notes that a turn of the stay was made, which left the thread like this. Says whether the thread stays inside: a
    /// stay is over after the most turns, and after one that ended the thread or finished a request. It is also over
    /// where no proposal is left and the thread may advance far in its next turn, unless it is alone; no clause says
    /// this.
    #[inline(always)]
    pub(crate) fn goes_on(&mut self, text: &Text, last: &Turn, is_alone: bool) -> bool
        ensures inside { result ≡ true → 0 < self.new.made }
        ensures outside { result ≡ false → self.new.made ≡ 0 }
        ensures notes { NotesTurn self.old self.new last.now }
    {
        let made = self.made + 1;
        let stays = made < self.turns
            && !last.has_ended()
            && last.finished.is_none()
            && (made < self.count || is_alone || comes_soon(text, last.regs.pc));
        self.made = if stays { made } else { 0 };
        stays
    }
}

/// Makes proposals in their places, from these registers on, until the registers that a step leaves rest on more than
/// the text or the next advance is a short one, and at most this many. Answers how many there are.
fn propose(text: &Text, regs: &Regs, most: usize, places: &mut [Advance; MOST_PROPOSALS]) -> usize
    requires most { 1 ≤ most }
    requires fits { AreAdvances text.now places.old }
    ensures count { (1 ≤ result) × (result ≤ 8) }
    ensures first { slice_get places.new 0 ≡ Some (advanced text.now regs.now) }
    ensures row { AreInRow result places.new }
    ensures fits { AreAdvances text.now places.new }
{
    advance_in(text, regs, &mut places[0]);
    let most = most.min(MOST_PROPOSALS);
    'places: for i in 1..most {
        let Some(left) = regs_left(&places[i - 1]) else {
            return i;
        };
        if comes_soon(text, left.pc) {
            return i;
        }
        advance_in(text, &left, &mut places[i]);
    }
    most
}

/// Makes the advance of these registers in its place.
#[tactic(auto, unfolding(guest_machine::specs::Advances::advanced))]
fn advance_in(text: &Text, regs: &Regs, place: &mut Advance)
    ensures exact { place.new ≡ advanced text.now regs.now }
    ensures fits { place.new ≡ advanced text.now place.new.before }
{
    place.before = *regs;
    place.after = *regs;
    place.next = run_on(text, &mut place.after);
}

/// The registers that the step of this advance leaves, where they rest on the text alone: those of a pause, and those
/// of a store, as it leaves them where it is not refused.
fn regs_left(advance: &Advance) -> Option<Regs>
    ensures { result ≡ left_by advance.now.next advance.now.after }
{
    let Regs { r, pc } = advance.after;
    match advance.next {
        Next::Pause => Some(Regs { r, pc }),
        Next::Shared(i) if matches!(i.op, Op::Stb | Op::Stw) => Some(Regs {
            r,
            pc: pc.wrapping_add(1),
        }),
        _ => None,
    }
}

/// Whether a load, a store or the halt comes within a few instructions from here, where jumps back are taken and those
/// ahead are not. It is a guess, and no clause speaks of it.
fn comes_soon(text: &Text, mut pc: u64) -> bool {
    for _ in 0..LOOKS {
        if pc >= text.len() as u64 {
            return true;
        }
        let i = text.get(pc as usize);
        let target = i.imm as u64;
        match i.op {
            Op::Ldb | Op::Ldw | Op::Stb | Op::Stw | Op::Halt => return true,
            Op::Sys | Op::Jr => return false,
            Op::Jmp | Op::Jal => pc = target,
            Op::Jz | Op::Jnz if target <= pc => pc = target,
            _ => pc += 1,
        }
    }
    false
}
