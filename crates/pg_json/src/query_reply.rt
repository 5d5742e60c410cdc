//! A query's reply, which can be given whole or page by page.
ghost use Rattle.std.specs.Prelude.{◌≡◌, ◌+◌, ◌<◌, ◌≤◌, ◌++◌, codes, IfOk, List, ℕ, length, map, take, drop, true};
ghost use Rattle.pg_json.specs.Joined.{row_begin};
ghost use Rattle.pg_json.specs.Replies.{max_page, max_reply};
ghost use Rattle.pg_json.specs.Pages.{ends_from, number_or_null, paged_text, query_text, row_text, rows_joined};
ghost use Rattle.serde_json.specs.Data.{Items};

use crate::bytes::ReplyBytes;
use crate::held_rows::HeldRows;
use crate::pieces::{part, with_page};
use std::alloc::{AllocError, Global};
use std::marker::Model;

/// A query's reply, with the places where its columns and each of its rows end, if these were noted.
#[derive(Drop)]
pub struct QueryReply {
    pub(crate) text: Vec<u8>,
    pub(crate) columns_end: usize,
    pub(crate) row_ends: Vec<usize>,
}

impl Model for QueryReply {
    ghost use Rattle.pg_json.specs.Joined.{IsReply};
    ghost use Rattle.pg_json.specs.Pages.{QueryText};
    ghost use Rattle.pg_json.specs.PagesCode.{query_text_code};

    ghost Value = { QueryText };

    ghost coded = { query_text_code };

    ghost view = { λ q.
        record { text = q.text.items; columns_end = q.columns_end; row_ends = q.row_ends.items } };

    ghost invariant = { λ q. IsReply q.text.items q.columns_end q.row_ends.items };
}

impl QueryReply {
    /// How many rows there are whose ends were noted.
    pub fn row_count(&self) -> usize
        ensures { result ≡ length self.now.row_ends }
    {
        self.row_ends.len()
    }

    /// The reply with all rows.
    pub fn whole(self) -> ReplyBytes
        ensures { result ≡ self.text }
    {
        ReplyBytes::made(self.text)
    }

    /// The reply with the first rows, at most `size`, and the number under which the others are held.
    pub fn first_page(
        &self,
        alloc: Global,
        size: usize,
        page: Option<u64>,
    ) -> Result<ReplyBytes, AllocError>
        ensures { (columns : Items) (rows : List Items) (steps : ℕ)
            → self.now ≡ query_text true columns rows steps
            → IfOk result
            (λ bytes. bytes ≡ paged_text columns page (take size (map row_text rows)) steps) }
    {
        let rows_end = self.end_of(size.min(self.row_ends.len()));
        let last_end = self.end_of(self.row_ends.len());
        let columns = part(&self.text, 0, self.columns_end);
        let rows = part(&self.text, self.columns_end, rows_end);
        let behind = part(&self.text, last_end, self.text.len());
        Ok(ReplyBytes::made(paged(alloc, columns, page, rows, behind)?))
    }

    /// The rows after the first `size`, in memory of their own.
    pub fn rest(&self, alloc: Global, size: usize) -> Result<HeldRows, AllocError>
        ensures { (columns : Items) (rows : List Items) (steps : ℕ)
            → self.now ≡ query_text true columns rows steps
            → IfOk result (λ held. held ≡ drop size (map row_text rows)) }
    {
        if self.row_ends.len() <= size {
            return Ok(HeldRows::none(alloc));
        }
        let begin = self.begin_of(size);
        let rows = part(&self.text, begin, self.end_of(self.row_ends.len()));
        HeldRows::cut(alloc, rows, places_behind(&self.row_ends, size), begin)
    }

    /// Where the first rows end. Before them stands `,"rows":[`.
    fn end_of(&self, rows: usize) -> usize
        requires { rows ≤ length self.now.row_ends }
        ensures { (texts : List (List ℕ))
            → self.now.row_ends ≡ ends_from (self.now.columns_end + 9) texts
            → result ≡ self.now.columns_end + 9 + length (rows_joined (take rows texts)) }
    {
        if rows == 0 {
            self.columns_end + 9
        } else {
            self.row_ends[rows - 1]
        }
    }

    /// Where the row behind so many others begins.
    fn begin_of(&self, row: usize) -> usize
        requires { row < length self.now.row_ends }
        ensures { (texts : List (List ℕ))
            → self.now.row_ends ≡ ends_from (self.now.columns_end + 9) texts
            → result ≡ self.now.columns_end + 9 + row_begin row texts }
    {
        if row == 0 {
            self.columns_end + 9
        } else {
            self.row_ends[row - 1] + 1
        }
    }
}

/// A reply's parts with a page's number after the first.
fn paged(
    alloc: Global,
    columns: &[u8],
    page: Option<u64>,
    rows: &[u8],
    behind: &[u8],
) -> Result<Vec<u8>, AllocError>
    requires { length columns.now + length rows.now + length behind.now ≤ max_reply }
    ensures text { IfOk result (λ v. v.items
        ≡ columns.now ++ codes ",\"page\":" ++ number_or_null page ++ rows.now ++ behind.now) }
    ensures within { IfOk result (λ v. length v.items ≤ max_page) }
{
    let room = columns.len() + rows.len() + behind.len() + 28;
    let mut text = Vec::with_capacity(alloc, room)?;
    text.extend_from_slice(columns)?;
    text.extend_from_slice(",\"page\":".as_bytes())?;
    let mut text = with_page(text, page)?;
    text.extend_from_slice(rows)?;
    text.extend_from_slice(behind)?;
    Ok(text)
}

fn places_behind(places: &[usize], first: usize) -> &[usize]
    requires { first ≤ length places.now }
    ensures { result.now ≡ drop first places.now }
{
    &places[first..]
}
