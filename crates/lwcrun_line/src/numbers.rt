ghost use Rattle.std.specs.Prelude.{◌≡◌, ◌≤◌, IfSome};
ghost use Rattle.lwcrun_line.specs.Numbers.{number_within};

use lwc_text::number_of;

/// The number that the word spells, if it is one and in the range.
#[tactic(auto, unfolding(crate::specs::Numbers::number_within))]
pub fn number_within(least: u32, most: u32, word: &str) -> Option<u32>
    ensures value { result ≡ number_within least most word.now }
    ensures within { IfSome result (λ number. (least ≤ number) × (number ≤ most)) }
{
    let number = number_of(word.as_bytes())?;
    if least <= number && number <= most {
        Some(number)
    } else {
        None
    }
}
