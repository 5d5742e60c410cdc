//! What a clause costs that works on each of its rows.
ghost use Rattle.std.specs.Prelude.{◌≡◌, ◌*◌};
ghost use Rattle.pg_meaning.specs.Meters.{Setting, spend};
ghost use Rattle.pg_meter.specs.Quotas.{after_test};

use pg_meaning::Fault;
use pg_meter::Meter;

/// Takes in so many steps for each row, or none where they would pass the quota.
#[tactic(auto, using(crate::proofs::Charges::too_many))]
pub fn spend_for_rows(meter: &mut Meter, rows: usize, steps: usize) -> Result<(), Fault>
    ensures spends { (s : Setting) → s.quota.max_steps ≡ meter.old.limit
        → spend s meter.old.used (rows * steps) ≡ after_test result meter.new.used }
    ensures limit { meter.new.limit ≡ meter.old.limit }
{
    let left = meter.left();
    match (rows as u64).checked_mul(steps as u64) {
        Some(all) if all <= left => meter.spend(all),
        _ => Err(Fault::StepQuota),
    }
}
