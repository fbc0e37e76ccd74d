// The words of a line: where one ends, where the one behind a space ends, and a word that is expected.
// A place is any number: what is not there is refused.
ghost use Rattle.std.specs.Prelude.{◌≡◌, ◌+◌, ◌≤◌, length, IfSome};
ghost use Rattle.script.specs.Words.{end_of, end_behind, skip_of};

// The place of the first `stop` from `at` on, or the text's end: with a space where a word ends, with a newline where a line does.
pub fn end(text: &[u8], at: usize, stop: u8) -> usize
    ensures { result ≡ end_of stop at text.now }
{
    let Some(rest) = text.get(at..) else {
        return at;
    };
    at + rest.iter().position(|b| *b == stop).unwrap_or(rest.len())
}

// The same within the text, where the place is known to lie in it.
pub fn until(text: &[u8], from: usize, stop: u8) -> usize
    requires { from ≤ length text.now }
    ensures { (from ≤ result) × (result ≤ length text.now) }
{
    end(text, from, stop)
}

// Where the word behind the space at `at` ends.
#[tactic(auto, using(crate::proofs::WordsEnds::behind_laws))]
pub fn behind(text: &[u8], at: usize) -> Option<usize>
    ensures place { result ≡ end_behind at text.now }
    ensures within { IfSome result (λ to. (at + 1 ≤ to) × (to ≤ length text.now)) }
{
    if *text.get(at)? != b' ' {
        return None;
    }
    Some(end(text, at + 1, b' '))
}

// The place behind a space and this word.
#[tactic(auto, using(crate::proofs::WordsBehind::skip_none))]
pub fn skip(text: &[u8], at: usize, word: &[u8]) -> Option<usize>
    ensures { result ≡ skip_of word.now at text.now }
{
    let to = behind(text, at)?;
    if &text[at + 1..to] == word {
        Some(to)
    } else {
        None
    }
}
