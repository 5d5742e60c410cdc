//! The reply of a query whose rows are told one after the other.
ghost use Rattle.std.specs.Prelude.{◌≤◌, length};

use crate::noted_rows::NotedRows;
use crate::pieces::head;
use crate::plain_rows::PlainRows;
use crate::query_reply::QueryReply;
use json::Writer;
use pg_meaning::Fault;
use pg_value_core::Out;
use std::alloc::{AllocError, Global};

/// A query's reply up to its rows: the first of its columns.
#[derive(Drop)]
pub struct ReplyColumns {
    alloc: Global,
    to: Writer,
    ghost begun: { 20 ≤ length to.before },
}

#[derive(Drop)]
enum Rows {
    Plain(PlainRows),
    // apart, so that rows that are not noted are moved cheaply; with the values of the row that is told
    Noted(Box<NotedRows>, Vec<Out>),
}

/// A query's reply so far: its columns and the first of its rows, and where these end if that is noted.
#[derive(Drop)]
pub struct RowsReply {
    rows: Rows,
}

impl Rows {
    ghost use Rattle.std.specs.Prelude.{[], List, ℕ, map, IfOk};
    ghost use Rattle.pg_json.specs.Replies.{items_of};
    ghost use Rattle.pg_json.specs.Telling.{AreWritten, HasNames};
    ghost use Rattle.serde_json.specs.Data.{string};

    /// No row yet, behind the columns that were written.
    fn begin(alloc: Global, to: Writer, notes: bool) -> Result<Rows, AllocError>
        requires { 20 ≤ length to.before }
        ensures { (names : List (List ℕ)) → HasNames to names
            → IfOk result (λ rows. AreWritten rows notes (items_of (map string names)) []) }
    {
        if notes {
            Ok(Rows::Noted(NotedRows::begin(to)?, Vec::new(alloc)))
        } else {
            Ok(Rows::Plain(PlainRows::begin(to)?))
        }
    }
}

impl ReplyColumns {
    ghost use Rattle.std.specs.Prelude.{◌++◌, ◌∷◌, [], map, List, ℕ, IfOk, OnOk};
    ghost use Rattle.pg_json.specs.Replies.{items_of};
    ghost use Rattle.pg_json.specs.Telling.{HasNamed, HasWritten};
    ghost use Rattle.serde_json.specs.Data.{string};

    /// No column yet.
    pub fn begin(alloc: Global) -> Result<ReplyColumns, AllocError>
        ensures { IfOk result (λ r. HasNamed r []) }
    {
        Ok(ReplyColumns {
            alloc,
            to: Writer::new(head(alloc)?),
        })
    }

    /// One column more.
    pub fn name(&mut self, column: &str) -> Result<(), AllocError>
        ensures { (names : List (List ℕ))
            → HasNamed self.old names → OnOk result (HasNamed self.new (names ++ column.now ∷ [])) }
    {
        self.to.string(column)
    }

    /// All columns are named, and there is no row yet. `notes` tells whether the ends of the rows are to be noted.
    pub fn end(self, notes: bool) -> Result<RowsReply, AllocError>
        ensures { (names : List (List ℕ)) → HasNamed self names
            → IfOk result (λ r. HasWritten r notes (items_of (map string names)) []) }
    {
        Ok(RowsReply {
            rows: Rows::begin(self.alloc, self.to, notes)?,
        })
    }
}

impl RowsReply {
    ghost use Rattle.std.specs.Prelude.{◌≡◌, ◌≢◌, ◌<◌, ◌≤◌, ◌++◌, ◌∷◌, [], length, List, Bool, IfOk, IfErr, OnOk};
    ghost use Rattle.pg_json.specs.Pages.{query_text};
    ghost use Rattle.pg_json.specs.Replies.{data_of, items_of, max_reply};
    ghost use Rattle.pg_json.specs.Rows.{rows_text};
    ghost use Rattle.pg_json.specs.Telling.{HasRow, HasWritten};
    ghost use Rattle.pg_meaning.specs.declared.fault.Fault.TheVariants.{OutOfMemory, ReplyTooLong};
    ghost use Rattle.pg_value_core.specs.declared.out.Out.TheVariants.{Int};
    ghost use Rattle.serde_json.specs.Data.{Data, Items, string};

    /// One row more, of which no value is told yet.
    pub fn begin_row(&mut self) -> Result<(), AllocError>
        ensures { (notes : Bool) (columns : Items) (rows : List Items)
            → HasWritten self.old notes columns rows
            → OnOk result (HasRow self.new notes columns rows []) }
    {
        match &mut self.rows {
            Rows::Plain(rows) => rows.begin_row(),
            Rows::Noted(_, row) => {
                row.clear();
                Ok(())
            }
        }
    }

    /// One value more of the row that is told.
    pub fn value(&mut self, value: Out) -> Result<(), AllocError>
        ensures { (notes : Bool) (columns : Items) (rows : List Items) (row : List Data)
            → HasRow self.old notes columns rows row
            → OnOk result (HasRow self.new notes columns rows (row ++ data_of value ∷ [])) }
    {
        match &mut self.rows {
            Rows::Plain(rows) => rows.value(&value),
            Rows::Noted(_, row) => {
                row.push(value)?;
                Ok(())
            }
        }
    }

    /// One integer more of the row that is told.
    pub fn integer(&mut self, number: &i64) -> Result<(), AllocError>
        ensures { (notes : Bool) (columns : Items) (rows : List Items) (row : List Data)
            → HasRow self.old notes columns rows row
            → OnOk result (HasRow self.new notes columns rows
            (row ++ data_of (Int number.now) ∷ [])) }
    {
        match &mut self.rows {
            Rows::Plain(rows) => rows.integer(number),
            Rows::Noted(_, row) => {
                row.push(Out::Int(*number))?;
                Ok(())
            }
        }
    }

    /// One text more of the row that is told.
    pub fn text(&mut self, text: &str) -> Result<(), AllocError>
        ensures { (notes : Bool) (columns : Items) (rows : List Items) (row : List Data)
            → HasRow self.old notes columns rows row
            → OnOk result (HasRow self.new notes columns rows (row ++ string text.now ∷ [])) }
    {
        match &mut self.rows {
            Rows::Plain(rows) => rows.text(text),
            Rows::Noted(_, row) => {
                let text = String::from_str(*row.allocator(), text)?;
                row.push(Out::Text(text))?;
                Ok(())
            }
        }
    }

    /// The row that is told is whole.
    pub fn end_row(&mut self) -> Result<(), AllocError>
        ensures { (notes : Bool) (columns : Items) (rows : List Items) (row : List Data)
            → HasRow self.old notes columns rows row
            → OnOk result (HasWritten self.new notes columns (rows ++ items_of row ∷ [])) }
    {
        match &mut self.rows {
            Rows::Plain(rows) => rows.end_row(),
            Rows::Noted(rows, row) => rows.push(row),
        }
    }

    /// The whole reply, which may be no longer than 16 MiB.
    pub fn finish(self, steps: u64) -> Result<QueryReply, Fault>
        ensures ok { (notes : Bool) (columns : Items) (rows : List Items)
            → HasWritten self notes columns rows
            → IfOk result (λ reply. reply ≡ query_text notes columns rows steps) }
        ensures within { IfOk result (λ reply. length reply.text ≤ max_reply) }
        ensures kind { IfErr result (λ e. e ≢ OutOfMemory → e ≡ ReplyTooLong) }
        ensures long { (notes : Bool) (columns : Items) (rows : List Items)
            → HasWritten self notes columns rows → IfErr result (λ e. e ≢ OutOfMemory
            → max_reply < length (rows_text columns rows steps)) }
    {
        match self.rows {
            Rows::Plain(rows) => rows.finish(steps),
            Rows::Noted(rows, _) => Box::into_inner(rows).finish(steps),
        }
    }
}
