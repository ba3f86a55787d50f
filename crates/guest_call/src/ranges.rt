ghost use Rattle.std.specs.Prelude.{◌≡◌};
ghost use Rattle.guest_call.specs.Guest as spec;

use lwc_base::MOST_RANGES;

/// Whether one of two numbers of ranges is past the limit.
pub fn are_too_many(counts: (u32, u32)) -> bool
    ensures { result ≡ spec.are_too_many counts }
{
    counts.0 > MOST_RANGES || counts.1 > MOST_RANGES
}
