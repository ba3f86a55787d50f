ghost use Rattle.std.specs.Prelude.{◌≡◌, ◌≤◌, false, nat_lt};
ghost use Rattle.lwc_base.specs.Capabilities.{empty_cap, full_cap, has_key};
ghost use Rattle.lwc_base.specs.Modes.{IsKey, kind_of, limit, number_of};
ghost use Rattle.lwc_types.specs.declared.limits.TheConstants.{MOST_PAGES};
ghost use Rattle.lwc_types.specs.declared.key.Key.{Key};

use crate::words::low_word;
use lwc_base::{Cap, PageNumber};

/// The capability of every key of a context with this number of pages (`full_cap`).
#[tactic(auto, unfolding(lwc_base::specs::Capabilities::full_cap))]
pub fn full(pages: PageNumber) -> Cap
    ensures full { result ≡ full_cap pages }
    ensures keys { (key : Key) → IsKey MOST_PAGES key →
        has_key result key ≡ nat_lt (number_of key) (limit pages (kind_of key)) }
{
    let mut words = [0; 256];
    'words: for i in 0..256usize {
        words[i] = low_word(u32::from(pages), i);
    }
    Cap {
        pages: words,
        slots: u64::MAX,
        cred: true,
    }
}

/// The capability of no key (`empty_cap`).
#[tactic(auto, unfolding(lwc_base::specs::Capabilities::empty_cap))]
pub fn empty() -> Cap
    ensures empty { result ≡ empty_cap }
    ensures none { (key : Key) → has_key result key ≡ false }
{
    Cap {
        pages: [0; 256],
        slots: 0,
        cred: false,
    }
}
