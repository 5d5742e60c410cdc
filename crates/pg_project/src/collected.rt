//! The values that `collect` has taken in.
ghost use Rattle.std.specs.Prelude.{◌≡◌, ◌<◌, ◌&&◌, nat_lt};
ghost use Rattle.pg_meaning.specs.Measure.{items_weight, items_depth};
ghost use Rattle.pg_value_core.specs.View.{values_view};

use pg_meaning::Fault;
use pg_value::{depth, weight};
use pg_value_core::Value;
use std::alloc::Global;

const GREATEST_WEIGHT: u64 = 1_048_576;

const GREATEST_DEPTH: u64 = 64;

/// Values with what they weigh together and how deep they nest, so that each new one is measured alone.
#[derive(Drop)]
pub(crate) struct Collected {
    pub(crate) items: Vec<Value>,
    weight: u64,
    depth: u64,
    ghost weighed: { weight ≡ items_weight (values_view items.items) },
    ghost deep: { depth ≡ items_depth (values_view items.items) },
    ghost light: { weight < 1_048_576 },
    ghost shallow: { depth < 64 },
}

fn is_within(weight: u64, depth: u64) -> bool
    ensures { result ≡ nat_lt weight 1_048_576 && nat_lt depth 64 }
{
    weight < GREATEST_WEIGHT && depth < GREATEST_DEPTH
}

impl Collected {
    ghost use Rattle.std.specs.Prelude.{◌≡◌, [], map, min, ◌+◌, max, ◌^◌, ◌-◌};
    ghost use Rattle.pg_project.specs.Summaries.{collected};
    ghost use Rattle.pg_meaning.specs.Measure.{items_weight, items_depth, weight_of, depth_of};
    ghost use Rattle.pg_value_core.specs.Gives.{Gives};
    ghost use Rattle.pg_value_core.specs.View.{view};

    pub(crate) fn new(alloc: Global) -> Collected
        ensures { map view result.items.items ≡ [] }
    {
        Collected {
            items: Vec::new(alloc),
            weight: 0,
            depth: 0,
        }
    }

    /// The values with one more, where the list of them is within the limits.
    pub(crate) fn with(self, value: Value) -> Result<Collected, Fault>
        ensures { Gives result
            (collected (map view self.items.items) (view value)) (λ c. map view c.items.items) }
    {
        let heavier = self.weight.saturating_add(weight(&value));
        let deeper = self.depth.max(depth(&value));
        if !is_within(heavier, deeper) {
            return Err(Fault::ValueTooLarge);
        }
        let mut items = self.items;
        items.push(value)?;
        Ok(Collected {
            items,
            weight: heavier,
            depth: deeper,
        })
    }
}
