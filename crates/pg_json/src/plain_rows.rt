//! The rows of a reply that is given whole.
ghost use Rattle.std.specs.Prelude.{◌≤◌, length};

use crate::pieces::with_steps;
use crate::query_reply::QueryReply;
use crate::value::{write, write_integer};
use json::Writer;
use pg_meaning::Fault;
use pg_value_core::Out;
use std::alloc::AllocError;

/// A reply up to its rows, and the first of these. What stands around the rows is put there as it is, and only the rows are
/// written token by token.
#[derive(Drop)]
pub(crate) struct PlainRows {
    to: Writer,
    ghost begun: { 20 ≤ length to.before },
}

impl PlainRows {
    ghost use Rattle.std.specs.Prelude.{◌≡◌, ◌≢◌, ◌<◌, ◌≤◌, ◌∷◌, [], ◌++◌, length, map, List, ℕ, IfOk, IfErr, OnOk};
    ghost use Rattle.pg_json.specs.Replies.{data_of, items_of, max_reply};
    ghost use Rattle.pg_json.specs.Telling.{HasNames, HasPlain, HasPlainRow, plain_end};
    ghost use Rattle.pg_meaning.specs.declared.fault.Fault.TheVariants.{OutOfMemory, ReplyTooLong};
    ghost use Rattle.pg_value_core.specs.declared.out.Out.TheVariants.{Int};
    ghost use Rattle.serde_json.specs.Data.{Data, Items, string};

    /// No row yet, behind the columns that were written.
    pub(crate) fn begin(to: Writer) -> Result<PlainRows, AllocError>
        requires { 20 ≤ length to.before }
        ensures { (names : List (List ℕ)) → HasNames to names
            → IfOk result (λ rows. HasPlain rows (items_of (map string names)) []) }
    {
        let mut text = to.into_inner();
        text.extend_from_slice("],\"rows\":[".as_bytes())?;
        Ok(PlainRows {
            to: Writer::new(text),
        })
    }

    pub(crate) fn begin_row(&mut self) -> Result<(), AllocError>
        ensures { (columns : Items) (rows : List Items) → HasPlain self.old columns rows
            → OnOk result (HasPlainRow self.new columns rows []) }
    {
        self.to.begin_array()
    }

    pub(crate) fn value(&mut self, value: &Out) -> Result<(), AllocError>
        ensures { (columns : Items) (rows : List Items) (row : List Data)
            → HasPlainRow self.old columns rows row
            → OnOk result (HasPlainRow self.new columns rows (row ++ data_of value.now ∷ [])) }
    {
        write(value, &mut self.to)
    }

    #[inline(always)]
    pub(crate) fn integer(&mut self, number: &i64) -> Result<(), AllocError>
        ensures { (columns : Items) (rows : List Items) (row : List Data)
            → HasPlainRow self.old columns rows row
            → OnOk result (HasPlainRow self.new columns rows
            (row ++ data_of (Int number.now) ∷ [])) }
    {
        write_integer(number, &mut self.to)
    }

    pub(crate) fn text(&mut self, text: &str) -> Result<(), AllocError>
        ensures { (columns : Items) (rows : List Items) (row : List Data)
            → HasPlainRow self.old columns rows row
            → OnOk result (HasPlainRow self.new columns rows (row ++ string text.now ∷ [])) }
    {
        self.to.string(text)
    }

    pub(crate) fn end_row(&mut self) -> Result<(), AllocError>
        ensures { (columns : Items) (rows : List Items) (row : List Data)
            → HasPlainRow self.old columns rows row
            → OnOk result (HasPlain self.new columns (rows ++ items_of row ∷ [])) }
    {
        self.to.end_array()
    }

    pub(crate) fn finish(self, steps: u64) -> Result<QueryReply, Fault>
        ensures ok { IfOk result (λ reply. reply ≡ plain_end self steps) }
        ensures within { IfOk result (λ reply. length reply.text ≤ max_reply) }
        ensures kind { IfErr result (λ e. e ≢ OutOfMemory → e ≡ ReplyTooLong) }
        ensures long { IfErr result (λ e. e ≢ OutOfMemory
            → max_reply < length ((plain_end self steps).text)) }
    {
        let mut text = self.to.into_inner();
        text.push(b']')?;
        let text = with_steps(text, steps)?;
        let row_ends = Vec::new(*text.allocator());
        Ok(QueryReply {
            text,
            columns_end: 0,
            row_ends,
        })
    }
}
