//! A query's reply while its rows are told.
use crate::spelling::spell;
use pg_graph::Tables;
use pg_json::{QueryReply, ReplyColumns, RowsReply, room_behind, room_behind_integer};
use pg_meaning::Fault;
use pg_rows::Columns;
use pg_scope::{Naming, column_name};
use pg_store::GraphView;
use pg_syntax_tree::Item;
use pg_value_core::{Out, Value};
use std::alloc::{AllocError, Global};

const WHOLE_ROOM: usize = 16_777_217;

/// A query's reply while its rows are told. It is written as long as it may still fit; once it can't,
/// the values that come are only tested, and nothing of them is kept.
#[derive(Drop)]
pub(crate) struct ReplyWriter {
    pub(crate) reply: RowsReply,
    pub(crate) room: usize,
    pub(crate) fault: Option<Fault>,
}

impl ReplyWriter {
    ghost use Rattle.std.specs.Prelude.{◌≡◌, ◌≢◌, ◌+◌, ◌++◌, ◌∷◌, [], Bool, List, ℕ, length, map, true, false, None, IfOk, OnOk};
    ghost use Rattle.serde_json.specs.Data.{Items, string};
    ghost use Rattle.pg_json.specs.Replies.{data_of};
    ghost use Rattle.pg_json.specs.Room.{least};
    ghost use Rattle.pg_json.specs.Telling.{HasNamed};
    ghost use Rattle.pg_meaning.specs.Graph.{Graph};
    ghost use Rattle.pg_meaning.specs.Scopes.{column_names, return_column};
    ghost use Rattle.pg_meaning.specs.Value.{Value as Datum};
    ghost use Rattle.pg_run.specs.Returning.{named_items};
    ghost use Rattle.pg_run.specs.Telling.{IsLost, IsTelling, IsTellingRow, Puts, told};
    ghost use Rattle.pg_syntax_tree.specs.View.{item_view};
    ghost use Rattle.pg_value_core.specs.Gives.{Gives};
    ghost use Rattle.pg_value_core.specs.declared.out.Out.TheVariants.{Int};
    ghost use Rattle.pg_value_core.specs.View.{view};

    /// The columns of these names, and no row yet. `notes` tells whether the ends of the rows are to be noted.
    pub fn begin(alloc: Global, columns: &Columns, notes: bool) -> Result<ReplyWriter, AllocError>
        ensures { IfOk result (λ t. (graph : Graph)
            → IsTelling notes graph (named_items columns.now) [] t) }
    {
        let mut head = ReplyColumns::begin(alloc)?;
        for at in 0..columns.len() {
            head.name(columns.name(at))?;
        }
        ReplyWriter::behind(head, notes)
    }

    /// The same of the columns that RETURN has for these items. No copy is made of a name.
    pub fn begin_items(
        alloc: Global,
        items: &Vec<Item>,
        notes: bool,
    ) -> Result<ReplyWriter, AllocError>
        ensures { IfOk result (λ t. (graph : Graph) → IsTelling notes graph
            (named_items (column_names (map return_column (map item_view items.now.items)))) [] t) }
    {
        let mut head = ReplyColumns::begin(alloc)?;
        for item in items {
            head.name(column_name(Naming::Source, item))?;
        }
        ReplyWriter::behind(head, notes)
    }

    /// No row yet, behind the columns that were named.
    fn behind(head: ReplyColumns, notes: bool) -> Result<ReplyWriter, AllocError>
        ensures { (names : List (List ℕ)) → HasNamed head names → IfOk result
            (λ t. (graph : Graph) → IsTelling notes graph (named_items names) [] t) }
    {
        Ok(ReplyWriter {
            reply: head.end(notes)?,
            room: WHOLE_ROOM,
            fault: None,
        })
    }

    /// One row more, of which no value is told yet. Nothing is written once the reply is lost.
    pub fn begin_row(&mut self) -> Result<(), AllocError>
        ensures lost { IsLost self.new → self.new.reply ≡ self.old.reply }
        ensures telling { (notes : Bool) (graph : Graph) (columns : Items)
            (rows : List (List Datum)) → IsTelling notes graph columns rows self.old
            → OnOk result (IsTellingRow notes graph columns rows [] self.new) }
    {
        if self.may_fit() {
            self.reply.begin_row()?;
        }
        Ok(())
    }

    /// One value more of the row that is told. Nothing of a value is kept once the reply is lost.
    pub fn take<T: Tables>(
        &mut self,
        alloc: Global,
        graph: &GraphView<'_, T>,
        value: &Value,
    ) -> Result<(), AllocError>
        ensures lost { IsLost self.new → self.new.reply ≡ self.old.reply }
        ensures telling { (notes : Bool) (columns : Items) (rows : List (List Datum))
            (row : List Datum) → IsTellingRow notes graph.now columns rows row self.old
            → OnOk result
            (IsTellingRow notes graph.now columns rows (row ++ view value.now ∷ []) self.new) }
    {
        if self.fault.is_some() {
            return Ok(());
        }
        self.room = self.room.saturating_sub(1);
        match value {
            Value::Null => self.put_scalar(Out::Null),
            Value::Bool(b) => self.put_scalar(Out::Bool(*b)),
            Value::Int(i) => self.put_integer(i),
            Value::Text(text) => self.put_text(text.as_ref().as_str()),
            Value::ShortText(text) => self.put_text(text.as_str()),
            _ => match spell(alloc, graph, value, &mut self.room) {
                Ok(out) => self.put(out),
                Err(fault) => {
                    self.fault = Some(fault);
                    Ok(())
                }
            },
        }
    }

    /// Puts a value for which no room is counted yet.
    #[inline(always)]
    fn put_scalar(&mut self, out: Out) -> Result<(), AllocError>
        ensures { Puts result self.old self.new (data_of out) (least (data_of out)) }
    {
        self.room = room_behind(self.room, &out);
        self.put(out)
    }

    /// Puts an integer, of which no value is made.
    #[inline(always)]
    fn put_integer(&mut self, number: &i64) -> Result<(), AllocError>
        ensures { Puts result self.old self.new (data_of (Int number.now))
            (least (data_of (Int number.now))) }
    {
        self.room = room_behind_integer(self.room, number);
        if self.room > 0 {
            self.reply.integer(number)?;
        }
        Ok(())
    }

    /// Puts a text, of which no copy is made.
    #[inline(always)]
    fn put_text(&mut self, text: &str) -> Result<(), AllocError>
        ensures { Puts result self.old self.new (string text.now) (length text.now + 2) }
    {
        self.room = self.room.saturating_sub(2).saturating_sub(text.len());
        if self.room > 0 {
            self.reply.text(text)?;
        }
        Ok(())
    }

    /// Puts a value for which the room is counted, if some is left.
    #[inline(always)]
    fn put(&mut self, out: Out) -> Result<(), AllocError>
        ensures { Puts result self.old self.new (data_of out) 0 }
    {
        if self.room > 0 {
            self.reply.value(out)?;
        }
        Ok(())
    }

    /// The row that was told is whole. Nothing is written once the reply is lost.
    pub fn end_row(&mut self) -> Result<(), AllocError>
        ensures lost { IsLost self.new → self.new.reply ≡ self.old.reply }
        ensures telling { (notes : Bool) (graph : Graph) (columns : Items)
            (rows : List (List Datum)) (values : List Datum)
            → IsTellingRow notes graph columns rows values self.old
            → OnOk result (IsTelling notes graph columns (rows ++ values ∷ []) self.new) }
    {
        self.room = self.room.saturating_sub(2);
        if self.may_fit() {
            self.reply.end_row()?;
        }
        Ok(())
    }

    /// Whether the reply may still be written.
    fn may_fit(&self) -> bool
        ensures fits { result ≡ true → self.now.room ≢ 0 }
        ensures none { result ≡ true → self.now.fault ≡ None }
        ensures not { result ≡ false → self.now.fault ≡ None → self.now.room ≡ 0 }
    {
        self.fault.is_none() && self.room > 0
    }

    /// The whole reply, or the fault in which it ends.
    pub fn finish(self, steps: u64) -> Result<QueryReply, Fault>
        ensures { (notes : Bool) (graph : Graph) (columns : Items) (rows : List (List Datum))
            → IsTelling notes graph columns rows self
            → Gives result (told notes graph columns rows steps) (λ reply. reply) }
    {
        if let Some(fault) = self.fault {
            return Err(fault);
        }
        if self.room == 0 {
            return Err(Fault::ReplyTooLong);
        }
        self.reply.finish(steps)
    }
}
