// Numbers of a line, in decimal: a whole word, and the word behind a space.
// One that is above its limit is refused.
ghost use Rattle.std.specs.Prelude.{◌≡◌, ◌≤◌, IfSome};
ghost use Rattle.script.specs.Decimals.{amount_of, number_at};
ghost use Rattle.script.specs.Limits.{NumberWithin};

use crate::words;

// The number that a whole word is, if it is at most `most`. It is tested before it grows, so that it never wraps.
#[tactic(auto, using(crate::proofs::DecimalsAmounts::amount_laws))]
pub fn amount(word: &[u8], most: u64) -> Option<u64>
    ensures value { result ≡ amount_of most word.now }
    ensures within { IfSome result (λ v. v ≤ most) }
{
    if word.is_empty() {
        return None;
    }
    let mut value: u64 = 0;
    for c in word {
        if !c.is_ascii_digit() {
            return None;
        }
        let digit = u64::from(*c - b'0');
        if most / 10 < value || most - 10 * value < digit {
            return None;
        }
        value = 10 * value + digit;
    }
    Some(value)
}

// The number behind the space at `at`, if it is at most `most`, and the place behind it.
#[tactic(auto, using(crate::proofs::WordsBehind::number_laws))]
pub fn number(text: &[u8], at: usize, most: u64) -> Option<(u64, usize)>
    ensures taken { result ≡ number_at most at text.now }
    ensures within { NumberWithin result most }
{
    let to = words::behind(text, at)?;
    let value = amount(&text[at + 1..to], most)?;
    Some((value, to))
}
