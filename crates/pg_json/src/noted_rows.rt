//! The rows of a reply that can be cut between them.
ghost use Rattle.std.specs.Prelude.{◌≡◌, ◌+◌, ◌++◌, [], List, ℕ, length, IfOk, OnOk};
ghost use Rattle.pg_json.specs.Joined.{comma_after};
ghost use Rattle.pg_json.specs.Pages.{row_text};
ghost use Rattle.pg_json.specs.Replies.{outs};

use crate::pieces::with_steps;
use crate::query_reply::QueryReply;
use crate::value::write_items;
use json::Writer;
use pg_meaning::Fault;
use pg_value_core::Out;
use std::alloc::AllocError;
use std::marker::Model;
use std::mem;

/// A reply up to its rows, and the first of these, with the places where they end.
#[derive(Drop)]
pub(crate) struct NotedRows {
    text: Vec<u8>,
    columns_end: usize,
    row_ends: Vec<usize>,
    // memory for the next row, which is printed apart so that nothing before it is touched
    scratch: Vec<u8>,
}

impl Model for NotedRows {
    ghost use Rattle.std.specs.Prelude.{[]};
    ghost use Rattle.pg_json.specs.Joined.{IsCut};
    ghost use Rattle.pg_json.specs.Pages.{QueryText};
    ghost use Rattle.pg_json.specs.PagesCode.{query_text_code};

    ghost Value = { QueryText };

    ghost coded = { query_text_code };

    ghost view = { λ n.
        record { text = n.text.items; columns_end = n.columns_end; row_ends = n.row_ends.items } };

    ghost invariant = { λ n. IsCut n.text.items n.columns_end n.row_ends.items [] };
}

impl NotedRows {
    ghost use Rattle.std.specs.Prelude.{◌≡◌, ◌≢◌, ◌<◌, ◌≤◌, ◌++◌, [], List, ℕ, length, map, IfOk, IfErr, OnOk};
    ghost use Rattle.pg_json.specs.Joined.{comma_behind, with_end, with_row};
    ghost use Rattle.pg_json.specs.Pages.{row_text};
    ghost use Rattle.pg_json.specs.Replies.{items_of, outs, max_reply};
    ghost use Rattle.pg_json.specs.Telling.{HasNames, HasNoted};
    ghost use Rattle.pg_meaning.specs.declared.fault.Fault.TheVariants.{OutOfMemory, ReplyTooLong};
    ghost use Rattle.serde_json.specs.Data.{string};

    /// No row yet, behind the columns that were written.
    pub(crate) fn begin(to: Writer) -> Result<Box<NotedRows>, AllocError>
        ensures { (names : List (List ℕ)) → HasNames to names
            → IfOk result (λ rows. HasNoted rows.value (items_of (map string names)) []) }
    {
        let mut to = to;
        to.end_array()?;
        let mut text = to.into_inner();
        let alloc = *text.allocator();
        let columns_end = text.len();
        text.extend_from_slice(",\"rows\":[".as_bytes())?;
        let rows = NotedRows {
            text,
            columns_end,
            row_ends: Vec::new(alloc),
            scratch: Vec::new(alloc),
        };
        Ok(Box::new(alloc, rows)?)
    }

    pub(crate) fn push(&mut self, row: &[Out]) -> Result<(), AllocError>
        ensures { OnOk result (self.new ≡ with_row self.old (row_text (outs row.now))) }
    {
        let none = Vec::new(*self.text.allocator());
        let scratch = mem::replace(&mut self.scratch, none);
        let printed = print_row(scratch, self.row_ends.len(), row)?;
        self.append(&printed)?;
        self.scratch = printed;
        Ok(())
    }

    /// Puts a row behind the others.
    fn append(&mut self, printed: &[u8]) -> Result<(), AllocError>
        requires { (row : List ℕ) × (printed.now ≡ comma_behind self.old.row_ends ++ row) }
        ensures { (row : List ℕ) → printed.now ≡ comma_behind self.old.row_ends ++ row
            → OnOk result (self.new ≡ with_row self.old row) }
    {
        self.row_ends.reserve(1)?;
        self.text.extend_from_slice(printed)?;
        self.row_ends.push(self.text.len())?;
        Ok(())
    }

    pub(crate) fn finish(self, steps: u64) -> Result<QueryReply, Fault>
        ensures ok { IfOk result (λ reply. reply ≡ with_end self steps) }
        ensures within { IfOk result (λ reply. length reply.text ≤ max_reply) }
        ensures kind { IfErr result (λ e. e ≢ OutOfMemory → e ≡ ReplyTooLong) }
        ensures long { IfErr result (λ e. e ≢ OutOfMemory
            → max_reply < length ((with_end self steps).text)) }
    {
        let mut text = self.text;
        text.push(b']')?;
        let text = with_steps(text, steps)?;
        Ok(QueryReply {
            text,
            columns_end: self.columns_end,
            row_ends: self.row_ends,
        })
    }
}

/// The row in the memory of another, with a comma before it unless it is the first.
fn print_row(scratch: Vec<u8>, others: usize, row: &[Out]) -> Result<Vec<u8>, AllocError>
    ensures { IfOk result (λ v. v.items ≡ comma_after others ++ row_text (outs row.now)) }
{
    let mut to = Writer::new(begin_row(scratch, others)?);
    write_items(row, &mut to)?;
    Ok(to.into_inner())
}

#[tactic(auto, using(crate::proofs::Joined::comma_none, crate::proofs::Joined::comma_some))]
fn begin_row(scratch: Vec<u8>, others: usize) -> Result<Vec<u8>, AllocError>
    ensures { IfOk result (λ v. v.items ≡ comma_after others) }
{
    let mut printed = scratch;
    printed.clear();
    if others == 0 {
        return Ok(printed);
    }
    printed.push(b',')?;
    Ok(printed)
}
