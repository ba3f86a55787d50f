ghost use Rattle.std.specs.Prelude.{◌≡◌, ◌<◌, ◌≤◌, ◌+◌, ◌++◌, ◌∷◌, [], IfOk, List, length, string_bytes};
ghost use Rattle.std.specs.Prelude.{take};
ghost use Rattle.std.specs.Int.{from_le_bytes, w64};
ghost use Rattle.lwc_gen.specs.Summary as spec;
ghost use Rattle.lwc_gen.specs.Summary.{Reply};

use lwc_base::{OutOfMemory, ThreadStatus};
use std::alloc::Global;

/// What the replies of a generated server add up to.
#[derive(Clone, Copy, PartialEq, Eq)]
pub struct Totals {
    /// The number of requests.
    pub requests: u32,
    /// The number of those that ended with code 0.
    pub done: u32,
    /// The sum of the first words of the replies, modulo 2^64.
    pub sum: u64,
    /// The sum of the second words, modulo 2^64.
    pub count: u64,
}

impl Totals {
    /// What no replies add up to.
    #[tactic(auto, unfolding(crate::specs::Summary::totals_of))]
    pub fn none() -> Totals
        ensures { result ≡ spec.totals_of [] }
    {
        Totals {
            requests: 0,
            done: 0,
            sum: 0,
            count: 0,
        }
    }

    /// Adds a reply, and how its request ended, if it has.
    pub fn add(&mut self, status: Option<ThreadStatus>, reply: &[u8])
        requires few { (self.old.requests < 1024) × (self.old.done ≤ self.old.requests) }
        ensures added { (replies : List Reply) → self.old ≡ spec.totals_of replies →
            self.new ≡ spec.totals_of (replies ++ record { status = status; bytes = reply.now } ∷ []) }
        ensures requests { self.new.requests ≡ self.old.requests + 1 }
        ensures done { self.new.done ≤ self.new.requests }
    {
        let (first, second) = words(reply);
        self.requests += 1;
        self.done += u32::from(is_done(status));
        self.sum = self.sum.wrapping_add(first);
        self.count = self.count.wrapping_add(second);
    }

    /// The line of the summary. The only error is out of memory.
    pub fn line(&self, alloc: Global, number: u32) -> Result<Vec<u8>, OutOfMemory>
        ensures { IfOk result (λ line. line.items ≡ spec.summary_line number self.now) }
    {
        Ok(self.text(alloc, number)?.into_bytes())
    }

    /// The same as a string.
    #[tactic(auto, unfolding(crate::specs::Summary::summary_line))]
    fn text(&self, alloc: Global, number: u32) -> Result<String, OutOfMemory>
        ensures { IfOk result (λ line. string_bytes line ≡ spec.summary_line number self.now) }
    {
        let Totals {
            requests,
            done,
            sum,
            count,
        } = *self;
        Ok(format!(in alloc;
            "gen {number} requests {requests} done {done} sum {sum} count {count}\n"
        )?)
    }
}

/// Whether a request has ended with code 0.
fn is_done(status: Option<ThreadStatus>) -> bool
    ensures { result ≡ spec.is_done status }
{
    matches!(status, Some(ThreadStatus::Done { code: 0 }))
}

/// The first and the second word of a reply, or 0 for both where it has fewer than 16 bytes.
fn words(reply: &[u8]) -> (u64, u64)
    ensures first { result.0 ≡ spec.first_word reply.now }
    ensures second { result.1 ≡ spec.second_word reply.now }
{
    if reply.len() < 16 {
        return (0, 0);
    }
    (word(reply), word(&reply[8..]))
}

/// The first eight bytes as a number.
fn word(bytes: &[u8]) -> u64
    requires { 8 ≤ length bytes.now }
    ensures { result ≡ from_le_bytes w64 (take 8 bytes.now) }
{
    u64::from_le_bytes([
        bytes[0], bytes[1], bytes[2], bytes[3], bytes[4], bytes[5], bytes[6], bytes[7],
    ])
}
