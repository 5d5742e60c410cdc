//! Rows that wait to be given, as they were printed.
ghost use Rattle.std.specs.Prelude.{◌≡◌, ◌+◌, ◌-◌, ◌<◌, ◌≤◌, [], List, ℕ, IfOk, length, map, slice_index, take, drop};
ghost use Rattle.pg_json.specs.Pages.{pulled_text, ends_from, rows_joined};
ghost use Rattle.pg_json.specs.Replies.{max_reply};

use crate::bytes::ReplyBytes;
use crate::pieces::{part, with_page};
use std::alloc::{AllocError, Global};
use std::marker::Model;

/// Rows as they were printed, in a row: the text of all, with a comma after each but the last, and where each ends. Those before `next` were
/// given.
#[derive(Drop)]
pub struct HeldRows {
    text: Vec<u8>,
    row_ends: Vec<u32>,
    next: usize,
    // where the next row begins
    start: usize,
}

impl Model for HeldRows {
    ghost use Rattle.std.specs.Prelude.{List, ℕ, drop};
    ghost use Rattle.std.specs.Coded.{coded_list, coded_ℕ};
    ghost use Rattle.pg_json.specs.HeldRows.{rows_between};
    ghost use Rattle.pg_json.specs.Joined.{IsHeld};

    ghost Value = { List (List ℕ) };

    ghost coded = { coded_list (coded_list coded_ℕ) };

    ghost view = { λ h. rows_between h.text.items h.start (drop h.next h.row_ends.items) };

    ghost invariant = { λ h. IsHeld h.text.items h.row_ends.items h.next h.start };
}

impl HeldRows {
    pub(crate) fn none(alloc: Global) -> HeldRows
        ensures { result ≡ [] }
    {
        HeldRows {
            text: Vec::new(alloc),
            row_ends: Vec::new(alloc),
            next: 0,
            start: 0,
        }
    }

    /// Rows that stood in a row in a longer text, where the first began at `begin`.
    pub(crate) fn cut(
        alloc: Global,
        text: &[u8],
        row_ends: &[usize],
        begin: usize,
    ) -> Result<HeldRows, AllocError>
        requires within { length text.now + 16 ≤ max_reply }
        requires cut { (rows : List (List ℕ)) × (text.now ≡ rows_joined rows)
            × (row_ends.now ≡ ends_from begin rows) }
        ensures { (rows : List (List ℕ)) → text.now ≡ rows_joined rows
            → row_ends.now ≡ ends_from begin rows → IfOk result (λ held. held ≡ rows) }
    {
        let row_ends = places_from(alloc, row_ends, begin)?;
        Ok(HeldRows {
            text: Vec::from_slice(alloc, text)?,
            row_ends,
            next: 0,
            start: 0,
        })
    }

    /// How many rows are left.
    pub fn len(&self) -> usize
        ensures { result ≡ length self.now }
    {
        self.row_ends.len() - self.next
    }

    /// The reply to a pull: the next rows, at most `size`, and the number under which the others are held.
    pub fn pulled(
        &self,
        alloc: Global,
        size: usize,
        page: Option<u64>,
    ) -> Result<ReplyBytes, AllocError>
        ensures { IfOk result (λ bytes. bytes ≡ pulled_text page (take size self.now)) }
    {
        let rows = self.next_rows(size);
        let mut text = Vec::with_capacity(alloc, rows.len() + 48)?;
        text.extend_from_slice("{\"code\":0,\"page\":".as_bytes())?;
        let mut text = with_page(text, page)?;
        text.extend_from_slice(",\"rows\":[".as_bytes())?;
        text.extend_from_slice(rows)?;
        text.extend_from_slice("]}".as_bytes())?;
        Ok(ReplyBytes::made(text))
    }

    /// The text of the next rows, at most `size`.
    fn next_rows(&self, size: usize) -> &[u8]
        ensures text { result.now ≡ rows_joined (take size self.now) }
        ensures within { length result.now + 16 ≤ max_reply }
    {
        let count = size.min(self.row_ends.len() - self.next);
        if count == 0 {
            return &[];
        }
        let end = self.row_ends[self.next + count - 1] as usize;
        part(&self.text, self.start, end)
    }

    /// Lets the next rows go, at most `size`. It takes no memory.
    pub fn skip(&mut self, size: usize)
        ensures { self.new ≡ drop size self.old }
    {
        let count = size.min(self.row_ends.len() - self.next);
        if count > 0 {
            self.next += count;
            self.start = self.row_ends[self.next - 1] as usize + 1;
        }
    }
}

/// The places as told from `begin` on.
fn places_from(alloc: Global, places: &[usize], begin: usize) -> Result<Vec<u32>, AllocError>
    requires { (i : ℕ) → i < length places.now
        → (begin ≤ slice_index places.now i) × (slice_index places.now i ≤ begin + max_reply) }
    ensures { IfOk result (λ v. v.items ≡ map (λ place. place - begin) places.now) }
{
    let mut from_begin = Vec::with_capacity(alloc, places.len())?;
    for place in places {
        from_begin.push((*place - begin) as u32)?;
    }
    Ok(from_begin)
}
