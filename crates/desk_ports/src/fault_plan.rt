//! Which calls of an object in memory are to fail, and how many did.
ghost use Rattle.std.specs.Prelude.{◌≡◌, ◌≤◌, ℕ, List, MatchBool};
ghost use Rattle.desk_ports.specs.Faults.{fresh_plan, Fails, Goes};

use std::marker::Model;

/// The plan of one object, which counts the calls of all its methods together.
#[derive(Drop)]
pub struct FaultPlan {
    /// Which calls shall fail, counted from 1.
    fail: Vec<u64>,
    /// How many calls were made. It stays at its last value.
    calls: u64,
    /// How many of them failed. It stays at its last value.
    faults: u64,
}

impl Model for FaultPlan {
    ghost use Rattle.desk_ports.specs.Faults.{Plan};

    ghost Value = { Plan };

    ghost view = { λ p. record { fail = p.fail.items; calls = p.calls; faults = p.faults } };
}

impl FaultPlan {
    /// A plan for an object of which no call was made yet.
    pub fn new(fail: Vec<u64>) -> FaultPlan
        ensures { result ≡ fresh_plan fail.items }
    {
        FaultPlan {
            fail,
            calls: 0,
            faults: 0,
        }
    }

    /// Counts a call, and answers whether it is one that is to fail.
    pub fn count_call(&mut self) -> bool
        ensures outcome { MatchBool result (Fails self.old self.new) (Goes self.old self.new) }
        ensures faults { self.old.faults ≤ self.new.faults }
    {
        self.calls = self.calls.saturating_add(1);
        let fails = self.fail.contains(&self.calls);
        if fails {
            self.faults = self.faults.saturating_add(1);
        }
        fails
    }
}
