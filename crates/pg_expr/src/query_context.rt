//! What stays the same while a query runs.

use pg_meter::MaxElements;
use pg_value_core::Parameters;
use std::alloc::Global;

/// Where memory is taken from, the parameters of the request, and how many elements its tenant may have.
#[derive(Clone, Copy)]
pub struct QueryContext<'a> {
    pub alloc: Global,
    pub parameters: &'a Parameters,
    pub max_elements: MaxElements,
}
