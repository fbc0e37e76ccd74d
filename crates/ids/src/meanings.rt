// What the numbers in a record stand for: whether an id is a credential or a device value,
// and what a tag and id mean.
ghost use Rattle.std.specs.Prelude.{◌≡◌};
ghost use Rattle.ids.specs.Ids.{credentials, place_of, is_credential, is_value, meaning_of, is_monotonic};

use crate::{
    ANCHOR_TAG, COUNTER_TAG, LAMPORT, Meaning, POOL_CONFIG, SIGNATURE_COUNTER, STORE_LAST_REANCHOR,
    VALUE_TAG,
};

// The credential numbers in their order, for look-up too.
const CREDENTIALS: [u8; 7] = [0x01, 0x02, 0x03, 0x11, 0x12, 0x21, 0x22];

// The place of a credential in that table.
fn place_of(id: u8) -> Option<usize>
    ensures { result ≡ place_of credentials id }
{
    CREDENTIALS.iter().position(|&credential| credential == id)
}

// Whether this is one of the seven credentials.
pub fn is_credential(id: u8) -> bool
    ensures { result ≡ is_credential id }
{
    place_of(id).is_some()
}

// Whether this is one of the value ids 1 to 8.
pub fn is_value(id: u8) -> bool
    ensures { result ≡ is_value id }
{
    matches!(id, LAMPORT..=STORE_LAST_REANCHOR)
}

// What a tag and id mean, by cases.
pub fn meaning_of(tag: u8, id: u8) -> Meaning
    ensures { result ≡ meaning_of tag id }
{
    match tag {
        COUNTER_TAG => match place_of(id) {
            Some(i) => Meaning::Credential(i),
            None => Meaning::Unknown,
        },
        VALUE_TAG => match id {
            POOL_CONFIG | SIGNATURE_COUNTER | STORE_LAST_REANCHOR => Meaning::Free,
            LAMPORT..=STORE_LAST_REANCHOR => Meaning::Monotonic,
            _ => Meaning::Unknown,
        },
        ANCHOR_TAG => match id {
            0 => Meaning::Anchor,
            _ => Meaning::Unknown,
        },
        _ => Meaning::Unknown,
    }
}

// Whether records of this tag and id hold a value that may not fall. An unknown id is none: of such records the last one counts.
#[tactic(auto, using(crate::proofs::IdsLaws::monotonic_where, crate::proofs::IdsLaws::monotonic_nowhere_else))]
pub fn is_monotonic(tag: u8, id: u8) -> bool
    ensures { result ≡ is_monotonic tag id }
{
    matches!(meaning_of(tag, id), Meaning::Monotonic)
}
