//! Rows of one width, in one list of values.
use crate::moves::{copy_row, move_row};
use pg_value_core::Value;
use std::alloc::{AllocError, Global};

/// Rows of values, each as wide as any other; a width of 0 has rows too.
#[derive(Drop)]
pub struct Rows {
    pub(crate) values: Vec<Value>,
    pub(crate) width: usize,
    pub(crate) count: usize,
    ghost sized: { length values.items ≡ count * width },
}

ghost use Rattle.std.specs.Prelude.{◌≡◌, ◌*◌, length};

impl Rows {
    ghost use Rattle.std.specs.Prelude.{◌≡◌, ◌<◌, ◌*◌, ◌++◌, ◌∷◌, [], Some, map, length, slice_get, OnOk, OnErr, IfOk};
    ghost use Rattle.pg_value_core.specs.View.{view};
    ghost use Rattle.pg_rows.specs.Tables.{table, rows_of, EachBelow, moved_rows};

    /// No rows yet, of a given number of columns, which may be none.
    pub fn new(alloc: Global, width: usize) -> Self
        ensures rows { table result ≡ [] }
        ensures width { result.width ≡ width }
    {
        Rows {
            values: Vec::new(alloc),
            width,
            count: 0,
        }
    }

    /// Rows of one column, one for each of the values. Nothing is copied.
    pub fn of_column(values: Vec<Value>) -> Self
        ensures rows { table result ≡ map (λ v. v ∷ []) (map view values.items) }
        ensures width { result.width ≡ 1 }
    {
        let count = values.len();
        Rows {
            values,
            width: 1,
            count,
        }
    }

    /// Rows of so many values each, which lie one row behind the other. Nothing is copied.
    pub fn of_values(values: Vec<Value>, width: usize, count: usize) -> Self
        requires { length values.items ≡ count * width }
        ensures rows { table result ≡ rows_of width count (map view values.items) }
        ensures width { result.width ≡ width }
    {
        Rows {
            values,
            width,
            count,
        }
    }

    /// How many values each row has.
    pub fn width(&self) -> usize
        ensures { result ≡ self.now.width }
    {
        self.width
    }

    /// How many rows there are.
    pub fn len(&self) -> usize
        ensures { result ≡ length (table self.now) }
    {
        self.count
    }

    /// Takes the values in as the last row.
    pub fn push(&mut self, mut row: Vec<Value>) -> Result<(), AllocError>
        requires { length row.items ≡ self.old.width }
        ensures rows { OnOk result (table self.new ≡ table self.old ++ map view row.items ∷ []) }
        ensures err { OnErr result (table self.new ≡ table self.old) }
        ensures width { self.new.width ≡ self.old.width }
    {
        self.push_from(&mut row)
    }

    /// Moves the values out to be the last row; their list keeps its memory for the next row.
    pub fn push_from(&mut self, row: &mut Vec<Value>) -> Result<(), AllocError>
        requires { length row.old.items ≡ self.old.width }
        ensures rows { OnOk result
            (table self.new ≡ table self.old ++ map view row.old.items ∷ []) }
        ensures emptied { OnOk result (row.new.items ≡ []) }
        ensures err { OnErr result (table self.new ≡ table self.old) }
        ensures width { self.new.width ≡ self.old.width }
    {
        let Some(count) = self.count.checked_add(1) else {
            return Err(AllocError);
        };
        self.values.append(row)?;
        self.count = count;
        Ok(())
    }

    /// Takes a copy of the values in as the last row.
    #[tactic(auto, using(crate::proofs::Copied::row_copied))]
    pub fn push_copy(&mut self, alloc: Global, row: &[Value]) -> Result<(), AllocError>
        requires { length row.now ≡ self.old.width }
        ensures rows { OnOk result (table self.new ≡ table self.old ++ map view row.now ∷ []) }
        ensures err { OnErr result (table self.new ≡ table self.old) }
        ensures width { self.new.width ≡ self.old.width }
    {
        let Some(count) = self.count.checked_add(1) else {
            return Err(AllocError);
        };
        let before = self.values.len();
        if copy_row(alloc, row, &mut self.values).is_err() {
            self.values.truncate(before);
            return Err(AllocError);
        }
        self.count = count;
        Ok(())
    }

    /// The values of a row, counted from 0, borrowed.
    pub fn row(&self, at: usize) -> &[Value]
        requires { at < length (table self.now) }
        ensures { slice_get (table self.now) at ≡ Some (map view result.now) }
    {
        let start = at * self.width;
        &self.values[start..start + self.width]
    }

    /// The rows of these places, in their order; each is moved, and leaves nulls.
    pub fn pick(&mut self, places: &[usize], alloc: Global) -> Result<Rows, AllocError>
        requires { EachBelow (length (table self.old)) places.now }
        ensures rows { IfOk result
            (λ r. table r ≡ moved_rows self.old.width (table self.old) places.now) }
        ensures width { IfOk result (λ r. r.width ≡ self.old.width) }
    {
        let room = places.len().saturating_mul(self.width);
        let mut moved = Vec::with_capacity(alloc, room.min(self.values.len()))?;
        for place in places {
            move_row(
                &mut self.values,
                *place * self.width,
                self.width,
                &mut moved,
            )?;
        }
        Ok(Rows {
            values: moved,
            width: self.width,
            count: places.len(),
        })
    }
}
