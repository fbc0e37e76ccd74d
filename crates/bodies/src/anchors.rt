// An anchor as a record, both ways.
// A record has no room for a head_seq of more than 48 bits, so some anchors have none.
ghost use Rattle.std.specs.Prelude.{◌≡◌};
ghost use Rattle.bodies.specs.Bodies.{anchor_record, anchor_in};

use basics::Refusal;
use codec::Raw;
use ids::Anchor;

// The record of an anchor; a head_seq above 2^48 - 1 has none, and gives 6.
pub fn anchor_record(anchor: Anchor) -> Result<Raw, Refusal>
    ensures { result ≡ anchor_record anchor }
{
    let is_above = ids::ANCHOR_SEQ_MAX < anchor.head_seq;
    if is_above {
        return Err(Refusal::WriteError);
    }
    let g = basics::bytes2(anchor.format_gen);
    let q = basics::bytes8(anchor.head_seq);
    let s = basics::bytes2(anchor.head_slot);
    Ok(Raw {
        tag: ids::ANCHOR_TAG,
        id: 0,
        body: [g[0], g[1], q[0], q[1], q[2], q[3], q[4], q[5], s[0], s[1]],
    })
}

// The anchor in an anchor's record.
pub fn anchor_of(raw: Raw) -> Anchor
    ensures { result ≡ anchor_in raw.body }
{
    let b = raw.body;
    let low = basics::number4(b[2], b[3], b[4], b[5]);
    let high = basics::number4(b[6], b[7], 0, 0);
    Anchor {
        format_gen: basics::number2(b[0], b[1]),
        head_seq: basics::joined(low, high),
        head_slot: basics::number2(b[8], b[9]),
    }
}
