// Which calls of an object in memory fail.
ghost use Rattle.std.specs.Prelude.{◌≡◌, ◌↔◌, ◌≤◌, IsTrue};
ghost use Rattle.pg_base.specs.declared.outside.OutFault.TheVariants.{Failed};
ghost use Rattle.pg_base.specs.Calls.{next_number, one_more, Fails};

use crate::outside::OutFault;
use std::marker::Model;

/// The numbers of the calls that fail, counted from 0, and how many calls were made.
#[derive(Drop)]
pub struct Schedule {
    failing: Vec<u64>,
    made: u64,
}

impl Model for Schedule {
    ghost use Rattle.pg_base.specs.Calls.{Calls};

    ghost Value = { Calls };

    ghost view = { λ s. record { failing = s.failing.items; made = s.made } };
}

impl Schedule {
    /// A schedule by which the calls of these numbers fail. None was made yet.
    pub fn new(failing: Vec<u64>) -> Schedule
        ensures { result ≡ record { failing = failing.items; made = 0 } }
    {
        Schedule { failing, made: 0 }
    }

    /// Counts a call, and says whether it fails.
    pub fn next_fails(&mut self) -> bool
        ensures fails { IsTrue result ↔ Fails self.old }
        ensures counted { self.new ≡ one_more self.old }
    {
        let number = self.made;
        self.made = number.saturating_add(1);
        self.failing.contains(&number)
    }
}

/// Counts a failure, and gives it. A count at its type's end stays there.
pub fn failure(faults: &mut u64) -> OutFault
    ensures fault { result ≡ Failed }
    ensures counted { faults.new ≡ next_number faults.old }
    ensures later { faults.old ≤ faults.new }
{
    *faults = faults.saturating_add(1);
    OutFault::Failed
}
