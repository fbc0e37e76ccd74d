// A program and an erase alone, on a plan by value: refused where the image doesn't have the place.
ghost use Rattle.std.specs.Prelude.{Err, ◌≡◌};
ghost use Rattle.sectors.specs.Shown.{ShowsStep};
ghost use Rattle.host.specs.Places.{place_answer, program_of, erase_of};

use basics::{Answer, Refusal};
use codec::SLOT;
use flash::{Plan, SLOTS};
use sectors::Step;

// Whether an image of n sectors has this slot; `outside` where it hasn't.
fn place_answer(n: usize, sector: usize, slot: usize, outside: Refusal) -> Answer
    ensures { result ≡ place_answer n sector slot (Err outside) }
{
    if n == 0 {
        return Err(Refusal::BadImage);
    }
    if n <= sector {
        return Err(outside);
    }
    if SLOTS <= slot {
        return Err(outside);
    }
    Ok(())
}

// Programs a slot and reads it back; 1 where the image is none, 6 where it has no such slot.
pub fn program(image: &mut [u8], sector: usize, plan: Plan, slot: usize, bytes: [u8; SLOT]) -> Step
    ensures { ShowsStep (program_of image.old sector plan slot bytes) result image.new }
{
    let n = flash::sectors(image.len());
    let answer = place_answer(n, sector, slot, Refusal::WriteError);
    let used = decisions::unused(plan);
    if answer.is_err() {
        return Step { answer, used };
    }
    sectors::program(image, sector, slot, bytes, used)
}

// Erases a sector and checks it; 1 where the image is none, 7 where it has no such sector.
pub fn erase(image: &mut [u8], sector: usize, plan: Plan) -> Step
    ensures { ShowsStep (erase_of image.old sector plan) result image.new }
{
    let n = flash::sectors(image.len());
    let answer = place_answer(n, sector, 0, Refusal::EraseError);
    let used = decisions::unused(plan);
    if answer.is_err() {
        return Step { answer, used };
    }
    sectors::erase(image, sector, used)
}
