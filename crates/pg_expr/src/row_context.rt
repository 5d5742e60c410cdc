//! Where expressions are evaluated.

use pg_rows::Columns;
use pg_value_core::{Parameters, Value};
use std::alloc::Global;

/// A row under the names of its columns, and the parameters of the request. The row has a value for each name.
#[derive(Clone, Copy)]
pub struct RowContext<'a> {
    pub alloc: Global,
    pub names: &'a Columns,
    pub row: &'a [Value],
    pub parameters: &'a Parameters,
}
