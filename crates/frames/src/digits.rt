// Digits, the byte that a pair of them means, and the kind that a line's first pair means.
ghost use Rattle.std.specs.Prelude.{◌≡◌, ◌<◌, MatchOption, SomeIff};
ghost use Rattle.frames.specs.Frame.{value_of};
ghost use Rattle.frames.specs.Characters.{pair_of, kind_of};
ghost use Rattle.frames.specs.Kinds.{number_of};

use crate::kind::Kind;

// The digit that a character is. What is below a digit wraps round to a great number, so each run of digits is one test: a match on the two
// ranges was tried, and with it the sum of a text's bytes took three times as long.
#[tactic(auto, unfolding(crate::specs::Frame::value_of))]
pub fn value(c: u8) -> Option<u8>
    ensures { SomeIff result (value_of c < 16) (value_of c) }
{
    let low = c.wrapping_sub(b'0');
    let high = c.wrapping_sub(b'a');
    if low < 10 {
        return Some(low);
    }
    if high < 6 {
        return Some(high + 10);
    }
    None
}

// The byte that two characters mean, where they are both digits. Both are looked at, whatever the first is: over a text of links that is quicker than `?`.
#[tactic(auto, unfolding(crate::specs::Characters::pair_of))]
pub fn pair(high: u8, low: u8) -> Option<u8>
    ensures { SomeIff result (pair_of high low < 256) (pair_of high low) }
{
    value(high).zip(value(low)).map(|(h, l)| h * 16 + l)
}

// The kind that the first two characters of a line mean, where there is such a kind. It does not ask `pair`: nearly all lines begin alike, so here it
// is quicker to leave early.
#[tactic(auto, unfolding(crate::specs::Characters::kind_of, crate::specs::Characters::pair_of, crate::specs::Frame::is_kind))]
pub fn kind_of(high: u8, low: u8) -> Option<Kind>
    ensures { MatchOption result (kind_of high low ≡ 0) (λ kind. number_of kind ≡ kind_of high low) }
{
    let number = value(high)? * 16 + value(low)?;
    Kind::try_from(usize::from(number)).ok()
}
