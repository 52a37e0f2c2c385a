// The characters and steps that a session has counted, and those of a run. How often each rule was used stands in `uses`.
ghost use Rattle.std.specs.Prelude.{◌≡◌};
ghost use Rattle.session.specs.bridge.Counting.{plus, counted_by, Addable};

use crate::run::Ran;
use std::ops::Add;

// "produced, steps": characters written and steps made. C has it within a session, in this order.
#[repr(C)]
#[derive(Clone, Copy, Debug, PartialEq, Eq)]
pub struct Tally {
    pub produced: u64,
    pub steps: u64,
}

// What was counted before and after, together.
impl Add for Tally {
    type Output = Tally;

    ghost can_add = { Addable };

    ghost add_gives = { λ before after sum. sum ≡ plus before after };

    fn add(self, after: Tally) -> Tally {
        Tally {
            produced: self.produced + after.produced,
            steps: self.steps + after.steps,
        }
    }
}

// What a run counted.
impl From<Ran> for Tally {
    ghost from_gives = { λ ran tally. tally ≡ counted_by ran };

    fn from(ran: Ran) -> Tally {
        Tally {
            produced: ran.count as u64,
            steps: ran.steps,
        }
    }
}
