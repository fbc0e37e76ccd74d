// A survey of the records of a log value: whether their keys fit, and where a key stands.
ghost use Rattle.std.specs.Prelude.{◌≡◌, ◌≤◌, take};
ghost use Rattle.records.specs.Table.{limit};
ghost use Rattle.records.specs.Surveys.{survey_of};

use crate::LIMIT;
use crate::fitting::Looked;
use codec::Raw;

// Whether no key stands twice and no tag is FF, and where a key stands. A key can only stand twice if its id does, so
// keys are compared only where an id is met again.
pub fn survey(table: [Raw; LIMIT], count: usize, tag: u8, id: u8) -> Option<Looked>
    requires { count ≤ limit }
    ensures { result ≡ survey_of tag id (take count table) }
{
    let mut met = [0u8; 256];
    let mut tags = [0u8; LIMIT];
    let mut ids = [0u8; LIMIT];
    let mut at = count;
    let mut held = None;
    for i in 0..count {
        let r = table[i];
        if r.tag == 0xFF {
            return None;
        }
        let mark = r.id as usize;
        if met[mark] != 0 {
            let first = crate::find(&tags, &ids, i, r.tag, r.id);
            let is_twice = first < i;
            if is_twice {
                return None;
            }
        }
        met[mark] = 1;
        tags[i] = r.tag;
        ids[i] = r.id;
        if r.tag == tag && r.id == id {
            at = i;
            held = Some(r);
        }
    }
    Some(Looked { at, held })
}
