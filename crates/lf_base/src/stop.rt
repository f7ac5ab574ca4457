//! When a call is to end before its answer, and what a call may spend.
ghost use Rattle.std.specs.Prelude.{◌≡◌, ◌≤◌, ℕ, IsTrue};
ghost use Rattle.lf_base.specs.Outside.{Rises};

/// Asked now and then in a long call, whether it is to stop.
pub trait Stop {
    /// How many stops there were. The count never falls.
    ghost stops: { Self → ℕ };

    /// Whether the call is to stop now. True only where the count rose. It takes no memory.
    fn stopped(&mut self) -> bool
        ensures count { stops self.old ≤ stops self.new }
        ensures rose { IsTrue result → Rises (stops self.old) (stops self.new) };
}

/// It stops nothing.
#[derive(Clone, Copy, Debug, PartialEq, Eq, Drop)]
pub struct NeverStop;

impl Stop for NeverStop {
    ghost stops = { λ _. 0 };

    fn stopped(&mut self) -> bool {
        false
    }
}

/// It stops at the poll of one number and at no other.
#[derive(Debug, Drop)]
pub struct ScriptStop {
    // the polls up to the stop, it included; 0 from then on
    left: u64,
    pub stops: u64,
}

impl ScriptStop {
    /// Stops at the poll number `at`, from 1; with 0 at none. The count is 0 before that poll and 1 from then on.
    pub fn new(at: u64) -> ScriptStop
        ensures { result.stops ≡ 0 }
    {
        ScriptStop { left: at, stops: 0 }
    }
}

impl Stop for ScriptStop {
    ghost stops = { λ s. s.stops };

    fn stopped(&mut self) -> bool {
        if self.left == 0 {
            return false;
        }
        self.left -= 1;
        if self.left == 0 {
            self.stops = self.stops.saturating_add(1);
            return true;
        }
        false
    }
}

/// What a call may spend: so many units, and so many calls nested in one another.
#[derive(Clone, Copy, Debug, PartialEq, Eq, Drop)]
pub struct Budget {
    pub units: u64,
    pub depth: u32,
}
