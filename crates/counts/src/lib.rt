// The running counts of a check: one record, to which is added what a form counts.
#![tactic(auto)]

ghost use Rattle.std.specs.Prelude.{◌≡◌};
ghost use Rattle.counts.specs.Sum.{sum, Fits};

use std::ops::{Add, AddAssign};

// Hypotheses stated, inductions, inversions, and instances among the references of steps.
#[derive(Clone, Copy, Debug, PartialEq, Eq)]
pub struct Counts {
    pub hypotheses: usize,
    pub inductions: usize,
    pub inversions: usize,
    pub instances: usize,
}

impl Counts {
    // Nothing is counted.
    pub const NONE: Counts = Counts {
        hypotheses: 0,
        inductions: 0,
        inversions: 0,
        instances: 0,
    };
}

// Both together.
impl Add for Counts {
    ghost can_add = { Fits };

    ghost add_gives = { λ c more both. both ≡ sum c more };

    type Output = Counts;

    fn add(self, more: Counts) -> Counts {
        Counts {
            hypotheses: self.hypotheses + more.hypotheses,
            inductions: self.inductions + more.inductions,
            inversions: self.inversions + more.inversions,
            instances: self.instances + more.instances,
        }
    }
}

// The other is added to it.
impl AddAssign for Counts {
    ghost can_add_assign = { Fits };

    ghost add_assign_gives = { λ c more after. after ≡ sum c more };

    fn add_assign(&mut self, more: Counts) {
        *self = *self + more;
    }
}
