//! Rows that are moved out one after the other.
use crate::moves::move_row;
use crate::table::Rows;
use pg_value_core::Value;
use std::alloc::{AllocError, Global};

/// Rows of which those at the head were moved out.
#[derive(Drop)]
pub struct RowsLeft {
    pub(crate) rows: Rows,
    pub(crate) at: usize,
}

impl Rows {
    ghost use Rattle.std.specs.Prelude.{◌≡◌};
    ghost use Rattle.pg_rows.specs.Left.{rows_left};
    ghost use Rattle.pg_rows.specs.Tables.{table};

    /// The rows, to be moved out from the first on. Nothing is copied.
    pub fn into_left(self) -> RowsLeft
        ensures rows { rows_left result ≡ table self }
        ensures width { result.rows.width ≡ self.width }
    {
        RowsLeft { rows: self, at: 0 }
    }
}

impl RowsLeft {
    ghost use Rattle.std.specs.Prelude.{◌≡◌, ◌<◌, ◌+◌, ◌∷◌, [], ◌++◌, drop, map, length, IfOk, IfSome, IfNone, OnOk};
    ghost use Rattle.pg_value_core.specs.View.{view};
    ghost use Rattle.pg_rows.specs.Left.{first_row, rows_left};

    /// The next row, if there is one.
    pub fn next_row(&mut self, alloc: Global) -> Result<Option<Vec<Value>>, AllocError>
        ensures row { IfOk result (λ found.
            IfSome found (λ row. rows_left self.old ≡ map view row.items ∷ rows_left self.new)) }
        ensures none { IfOk result (λ found. IfNone found (rows_left self.old ≡ [])) }
        ensures len { IfOk result
            (λ found. IfSome found (λ row. length row.items ≡ self.old.rows.width)) }
        ensures width { self.new.rows.width ≡ self.old.rows.width }
    {
        if self.at >= self.rows.count {
            return Ok(None);
        }
        let row = self.rows.take_row(self.at, alloc)?;
        self.at += 1;
        Ok(Some(row))
    }

    /// Lends the next row, if there is one.
    #[tactic(auto, using(crate::proofs::Taken::looked, crate::proofs::Taken::none_left))]
    pub fn look(&self) -> Option<&[Value]>
        ensures row { IfSome result
            (λ row. rows_left self.now ≡ map view row.now ∷ drop 1 (rows_left self.now)) }
        ensures none { IfNone result (rows_left self.now ≡ []) }
    {
        if self.at < self.rows.len() {
            Some(self.rows.row(self.at))
        } else {
            None
        }
    }

    /// Moves the next row behind the values.
    #[tactic(auto, using(crate::proofs::Taken::more_left, crate::proofs::Taken::skipped))]
    pub fn next_into(&mut self, values: &mut Vec<Value>) -> Result<(), AllocError>
        requires { 0 < length (rows_left self.old) }
        ensures values { OnOk result (map view values.new.items
            ≡ map view values.old.items ++ first_row (rows_left self.old)) }
        ensures rows { OnOk result (rows_left self.new ≡ drop 1 (rows_left self.old)) }
        ensures len { OnOk result
            (length values.new.items ≡ length values.old.items + self.old.rows.width) }
        ensures width { self.new.rows.width ≡ self.old.rows.width }
    {
        let _count = self.rows.count;
        self.rows.take_into(self.at, values)?;
        self.at += 1;
        Ok(())
    }

    /// Leaves the next rows out, at most so many.
    #[tactic(auto, using(crate::proofs::Taken::skipped, crate::proofs::Taken::all_skipped))]
    pub fn skip(&mut self, count: u64)
        ensures rows { rows_left self.new ≡ drop count (rows_left self.old) }
        ensures width { self.new.rows.width ≡ self.old.rows.width }
    {
        let left = self.rows.count.saturating_sub(self.at);
        if count < left as u64 {
            self.at += count as usize;
        } else {
            self.at = self.rows.count;
        }
    }
}

impl Rows {
    ghost use Rattle.std.specs.Prelude.{◌≡◌, ◌<◌, ◌+◌, ◌∷◌, ◌++◌, drop, map, length, IfOk, OnOk};
    ghost use Rattle.pg_value_core.specs.View.{view};
    ghost use Rattle.pg_rows.specs.Left.{first_row};
    ghost use Rattle.pg_rows.specs.Tables.{table};

    /// Moves a row behind the values, and leaves nulls.
    pub(crate) fn take_into(&mut self, at: usize, values: &mut Vec<Value>) -> Result<(), AllocError>
        requires { at < self.old.count }
        ensures values { OnOk result (map view values.new.items
            ≡ map view values.old.items ++ first_row (drop at (table self.old))) }
        ensures rows { OnOk result
            (drop (at + 1) (table self.new) ≡ drop (at + 1) (table self.old)) }
        ensures len { OnOk result
            (length values.new.items ≡ length values.old.items + self.old.width) }
        ensures width { self.new.width ≡ self.old.width }
        ensures count { self.new.count ≡ self.old.count }
    {
        move_row(&mut self.values, at * self.width, self.width, values)
    }

    /// Moves a row out, and leaves nulls.
    pub(crate) fn take_row(&mut self, at: usize, alloc: Global) -> Result<Vec<Value>, AllocError>
        requires { at < self.old.count }
        ensures row { IfOk result (λ row. drop at (table self.old)
            ≡ map view row.items ∷ drop (at + 1) (table self.new)) }
        ensures len { IfOk result (λ row. length row.items ≡ self.old.width) }
        ensures width { self.new.width ≡ self.old.width }
        ensures count { self.new.count ≡ self.old.count }
    {
        let mut row = Vec::with_capacity(alloc, self.width)?;
        move_row(&mut self.values, at * self.width, self.width, &mut row)?;
        Ok(row)
    }
}
