//! The elements of a graph.

use pg_meaning::Fault;
use std::marker::Model;

/// How many elements there are, against the quota of elements.
#[derive(Drop)]
pub struct Room {
    elements: u64,
    limit: u64,
}

impl Model for Room {
    ghost use Rattle.pg_meter.specs.Quotas.{Elements};

    ghost Value = { Elements };

    ghost view = { λ r. record { elements = r.elements; limit = r.limit } };
}

impl Room {
    ghost use Rattle.std.specs.Prelude.{◌≡◌, ◌+◌, OnErr, OnOk};
    ghost use Rattle.pg_meaning.specs.Graph.{Graph, element_count};
    ghost use Rattle.pg_meaning.specs.Meters.{Setting, test_room};
    ghost use Rattle.pg_meter.specs.Quotas.{Elements};

    /// How many nodes and relationships together there are, and how many there may be.
    pub fn new(elements: u64, limit: u64) -> Room
        ensures { result ≡ record { elements = elements; limit = limit } }
    {
        Room { elements, limit }
    }

    /// Takes in one element, or none where there is no room for it.
    pub fn take(&mut self) -> Result<(), Fault>
        ensures tests { (s : Setting) (graph : Graph) → s.quota.max_elements ≡ self.old.limit
            → element_count graph ≡ self.old.elements → result ≡ test_room s graph }
        ensures taken { OnOk result
            (self.new ≡ record self.old { elements = self.old.elements + 1 }) }
        ensures refused { OnErr result (self.new ≡ self.old) }
    {
        if self.elements >= self.limit {
            return Err(Fault::ElementQuota);
        }
        self.elements += 1;
        Ok(())
    }
}
