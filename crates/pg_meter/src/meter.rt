//! The steps of a query.

use pg_meaning::Fault;
use std::marker::Model;

/// The steps used so far, which never pass the quota.
#[derive(Drop)]
pub struct Meter {
    used: u64,
    limit: u64,
}

impl Model for Meter {
    ghost use Rattle.std.specs.Prelude.{◌≤◌};
    ghost use Rattle.pg_meter.specs.Quotas.{Steps};

    ghost Value = { Steps };

    ghost view = { λ m. record { used = m.used; limit = m.limit } };

    ghost invariant = { λ m. m.used ≤ m.limit };
}

impl Meter {
    ghost use Rattle.std.specs.Prelude.{◌≡◌, ◌+◌, OnErr};
    ghost use Rattle.pg_meaning.specs.Meters.{Setting, spend};
    ghost use Rattle.pg_meter.specs.Quotas.{Steps, after_test};

    /// No steps yet.
    pub fn new(limit: u64) -> Meter
        ensures { result ≡ record { used = 0; limit = limit } }
    {
        Meter { used: 0, limit }
    }

    /// Takes in more steps, or none where they would pass the quota.
    pub fn spend(&mut self, steps: u64) -> Result<(), Fault>
        ensures spends { (s : Setting) → s.quota.max_steps ≡ self.old.limit
            → spend s self.old.used steps ≡ after_test result self.new.used }
        ensures limit { self.new.limit ≡ self.old.limit }
        ensures refused { OnErr result (self.new ≡ self.old) }
    {
        if steps > self.limit - self.used {
            return Err(Fault::StepQuota);
        }
        self.used += steps;
        Ok(())
    }

    /// The steps that a reply reports.
    pub fn used(&self) -> u64
        ensures { result ≡ self.now.used }
    {
        self.used
    }

    /// How many more steps the quota lets in.
    pub fn left(&self) -> u64
        ensures { self.now.used + result ≡ self.now.limit }
    {
        self.limit - self.used
    }
}
