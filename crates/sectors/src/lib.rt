// "Writing": a slot and an erase, each with what it used of the plan; a sector, a commit and an append made of them.
// Each is stated for every place where power may go, so that the theorems on a pulled stick cite these very contracts.
#![tactic(auto)]

mod rewrites; // a sector written anew: erased, records, header last
mod commits; // a table committed to the first sector that takes it
mod appends; // a record appended in up to three tries, or a commit

pub use appends::append;
pub use commits::commit;

// What stands here uses:
ghost use Rattle.std.specs.Prelude.{Bool, ◌<◌, length};
ghost use Rattle.flash.specs.Image.{slot_count};
ghost use Rattle.flash.specs.Run as run;
ghost use Rattle.sectors.specs.Asks.{HasSector, SlotsMore, SectorsMore};
ghost use Rattle.sectors.specs.Shown.{flash_with, ShowsStep};

use basics::Answer;
use codec::SLOT;
use flash::Plan;
use records::State;

// What a call has used of its plan so far, and the bytes that it has programmed and erased.
#[derive(Clone, Copy)]
pub struct Used {
    pub plan: Plan,
    pub programmed: usize,
    pub erased: usize,
}

// What one program or erase came to.
#[derive(Clone, Copy)]
pub struct Step {
    pub answer: Answer,
    pub used: Used,
}

// What a write came to, the table apart.
#[derive(Clone, Copy)]
pub struct Wrote {
    pub answer: Answer,
    pub state: State,
    pub next_seq: u32,
    pub used: Used,
}

// What the tries of a slot came to; `full` where head reached 256 first.
#[derive(Clone, Copy)]
struct Tried {
    pub full: bool,
    pub answer: Answer,
    pub head: u32,
    pub used: Used,
}

// Programs a slot and reads it back.
pub fn program(image: &mut [u8], sector: usize, slot: usize, bytes: [u8; SLOT], used: Used) -> Step
    requires { (slot < slot_count) × HasSector (length image.old) sector × SlotsMore 1 used }
    ensures { (cut : Bool) → ShowsStep (run.program sector slot bytes (flash_with image.old used cut)) result image.new }
{
    let plan = used.plan;
    let n = flash::to_program(plan);
    let answer = flash::program_slot(image, sector, slot, bytes, n);
    let left = flash::after_program(plan);
    Step {
        answer,
        used: Used {
            plan: left,
            programmed: used.programmed + n,
            erased: used.erased,
        },
    }
}

// Erases a sector and checks that all of it is erased.
pub fn erase(image: &mut [u8], sector: usize, used: Used) -> Step
    requires { HasSector (length image.old) sector × SectorsMore 1 used }
    ensures { (cut : Bool) → ShowsStep (run.erase sector (flash_with image.old used cut)) result image.new }
{
    let plan = used.plan;
    let n = flash::to_erase(plan);
    let answer = flash::erase_sector(image, sector, n);
    let left = flash::after_erase(plan);
    Step {
        answer,
        used: Used {
            plan: left,
            programmed: used.programmed,
            erased: used.erased + n,
        },
    }
}
