// Two requests in turn, on one plan that is run down in place; and what an applet does on a PIN attempt, which is such a turn.
ghost use Rattle.std.specs.Prelude.{◌≡◌};
ghost use Rattle.host.specs.Turns.{InTurnOf, AttemptOf};

use crate::{Kind, Request};
use decisions::Done;
use flash::Plan;
use records::Log;

// What came of the first request, and what came of the second.
#[derive(Clone, Copy)]
pub struct InTurn {
    pub first: Done,
    pub second: Done,
}

// Both, as one answer.
fn both(first: Done, second: Done) -> InTurn
    ensures { result ≡ record { first = first; second = second } }
{
    InTurn { first, second }
}

// The log that a call hands back.
fn log_after(done: Done) -> Log
    ensures { result ≡ done.log }
{
    done.log
}

// A request, and another on the log, the image and the plan as the first left them.
pub fn in_turn(image: &mut [u8], log: Log, plan: Plan, first: Request, second: Request) -> InTurn
    ensures { InTurnOf first second image.old log plan result image.new }
{
    let mut left = plan;
    let one = crate::call(image, log, &mut left, first);
    let next = log_after(one);
    let two = crate::call(image, next, &mut left, second);
    both(one, two)
}

// What an applet does on a PIN attempt: the clock's next number, then one try spent, whatever came of the number, so that no attempt is free.
pub fn attempt(
    image: &mut [u8],
    log: Log,
    plan: Plan,
    credential: u8,
    current: u8,
    seen: u64,
) -> InTurn
    ensures { AttemptOf credential current seen image.old log plan result image.new }
{
    let number = Request::of(Kind::AdvanceLamport { seen });
    let spend = Request::of(Kind::Spend {
        credential,
        current,
    });
    in_turn(image, log, plan, number, spend)
}
