// A counter of tries as a record, both ways.
// Its id is the credential, and its body holds the allowance and two totals.
ghost use Rattle.std.specs.Prelude.{◌≡◌};
ghost use Rattle.bodies.specs.Bodies.{counter_record, counter_in};

use codec::Raw;
use ids::CounterState;

// The record of a credential's counter.
pub fn counter_record(credential: u8, state: CounterState) -> Raw
    ensures { result ≡ counter_record credential state }
{
    let t = basics::bytes4(state.total);
    let a = basics::bytes4(state.at_reset);
    Raw {
        tag: ids::COUNTER_TAG,
        id: credential,
        body: [
            state.allowance,
            0,
            t[0],
            t[1],
            t[2],
            t[3],
            a[0],
            a[1],
            a[2],
            a[3],
        ],
    }
}

// The counter in a counter's record.
pub fn counter_of(raw: Raw) -> CounterState
    ensures { result ≡ counter_in raw.body }
{
    let b = raw.body;
    CounterState {
        total: basics::number4(b[2], b[3], b[4], b[5]),
        at_reset: basics::number4(b[6], b[7], b[8], b[9]),
        allowance: b[0],
    }
}
