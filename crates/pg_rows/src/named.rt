//! Rows with the names of their columns beside them.
use crate::columns::Columns;
use crate::table::Rows;
use std::alloc::{AllocError, Global};

/// Rows between two clauses of a query: a column for each variable in scope.
#[derive(Drop)]
pub struct BindingTable {
    pub(crate) names: Columns,
    pub(crate) rows: Rows,
    ghost fits: { rows.width ≡ length names },
}

ghost use Rattle.std.specs.Prelude.{◌≡◌, length};

impl BindingTable {
    ghost use Rattle.std.specs.Prelude.{◌≡◌, ◌∷◌, [], length, IfOk};
    ghost use Rattle.pg_rows.specs.States.{seen};
    ghost use Rattle.pg_rows.specs.Tables.{table};

    /// What a query begins with: one row without columns.
    pub fn begin(alloc: Global) -> Result<BindingTable, AllocError>
        ensures { IfOk result (λ t. seen t ≡ record { names = []; rows = [] ∷ [] }) }
    {
        let mut rows = Rows::new(alloc, 0);
        rows.push(Vec::new(alloc))?;
        Ok(BindingTable {
            names: Columns::new(alloc),
            rows,
        })
    }

    /// Joins rows to the names of their columns. Nothing is copied.
    pub fn new(names: Columns, rows: Rows) -> BindingTable
        requires { rows.width ≡ length names }
        ensures { seen result ≡ record { names = names; rows = table rows } }
    {
        BindingTable { names, rows }
    }

    /// The names of the columns, from left to right.
    pub fn names(&self) -> &Columns
        ensures { result.now ≡ (seen self.now).names }
    {
        &self.names
    }

    /// The rows without their names.
    pub fn rows(&self) -> &Rows
        ensures rows { table result.now ≡ (seen self.now).rows }
        ensures width { result.now.width ≡ length (seen self.now).names }
    {
        &self.rows
    }

    /// The names and the rows apart.
    pub fn split(self) -> (Columns, Rows)
        ensures names { result.0 ≡ (seen self).names }
        ensures rows { table result.1 ≡ (seen self).rows }
        ensures width { result.1.width ≡ length (seen self).names }
    {
        (self.names, self.rows)
    }
}
