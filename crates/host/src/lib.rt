// The host build: what can be asked of the flash, on a plan that is lent and run down in place, call after call.
// `call` takes the plan out whole, meets the request by value, and puts back whole what was left of it.
#![tactic(auto)]

mod requests; // what can be asked, as a value
mod places; // a program and an erase alone, where the image has the place
mod by_value; // a request met on a plan by value
mod turns; // two requests in turn on one plan, and a PIN attempt

pub use requests::{Kind, Request};
pub use turns::{InTurn, attempt, in_turn};

// What stands here uses:
ghost use Rattle.std.specs.Prelude.{◌≡◌};
ghost use Rattle.host.specs.Requests.{requested};
ghost use Rattle.host.specs.Lent.{ShowsDoneLent};

use decisions::Done;
use flash::Plan;
use records::Log;

// The plan that a call hands back.
fn plan_after(done: Done) -> Plan
    ensures { result ≡ done.plan }
{
    done.plan
}

// A request on a lent plan.
pub fn call(image: &mut [u8], log: Log, plan: &mut Plan, request: Request) -> Done
    ensures { ShowsDoneLent (requested request image.old log plan.old) result image.new plan.new }
{
    let done = by_value::meet(image, log, *plan, request);
    *plan = plan_after(done);
    done
}
