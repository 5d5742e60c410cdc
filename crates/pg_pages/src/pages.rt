//! Held rows by the numbers of their pages.
ghost use Rattle.std.specs.Prelude.{◌≡◌, ◌≢◌, ◌<◌, ◌≤◌, ◌^◌, ◌+◌, ℕ, List, [], ◌∷◌, ◌++◌, string_bytes, length, map, drop, true, Ok, Err, OnOk, OnErr, IfErr, MatchResult, option_map};
ghost use Rattle.pg_json.specs.Pages.{query_text, row_text};
ghost use Rattle.pg_meaning.specs.Meters.{greatest_id};
ghost use Rattle.pg_meaning.specs.declared.fault.Fault.TheVariants.{OutOfMemory};
ghost use Rattle.pg_pages.specs.Gives.{GivesHeld, LeavesHeld};
ghost use Rattle.pg_pages.specs.Held.{Held, dropped, first_page, held_rows, no_pages, page_of, pulled, puller_of, with_rows, without_page};
ghost use Rattle.pg_pages.specs.Held as held;
ghost use Rattle.pg_pages.specs.Kept.{held_more, number_for, shown};
ghost use Rattle.serde_json.specs.Data.{Items};

use pg_headroom::test_headroom;
use pg_json::{HeldRows, QueryReply, ReplyBytes};
use pg_meaning::Fault;
use std::alloc::Global;
use std::collections::BTreeMap;
use std::marker::Model;

/// A counter that stands here hands out no number.
const GREATEST_NUMBER: u64 = 9_223_372_036_854_775_807;

/// The rows of one query that are left, and the token that may pull them.
#[derive(Drop)]
struct Page {
    token: String,
    size: usize,
    rows: HeldRows,
}

/// The pages of a tenant. Their rows together are counted as they come and go.
#[derive(Drop)]
pub struct Pages {
    by_number: BTreeMap<u64, Page>,
    rows: u64,
    next: u64,
}

impl Model for Pages {
    ghost use Rattle.std.specs.Prelude.{map};
    ghost use Rattle.pg_pages.specs.Held.{Held};
    ghost use Rattle.pg_pages.specs.HeldCode.{held_code};
    ghost use Rattle.pg_pages.specs.Kept.{AreKept, shown};

    ghost Value = { Held };

    ghost coded = { held_code };

    ghost view = { λ p. record { pages = map shown p.by_number.entries; next = p.next } };

    ghost invariant = { λ p. AreKept p.by_number.entries p.rows p.next };
}

impl Pages {
    /// No page, and the first number is 0.
    pub fn new(alloc: Global) -> Pages
        ensures { result ≡ no_pages }
    {
        Pages {
            by_number: BTreeMap::new(alloc),
            rows: 0,
            next: 0,
        }
    }

    /// The reply to a query that is given page by page, `size` rows at a time: the first rows, while the others are held for the token. No
    /// more than `max_held` rows may be held in all.
    pub fn hold(
        &mut self,
        alloc: Global,
        max_held: u64,
        token: String,
        size: usize,
        reply: QueryReply,
    ) -> Result<ReplyBytes, Fault>
        ensures { (columns : Items) (rows : List Items) (steps : ℕ)
            → reply ≡ query_text true columns rows steps
            → GivesHeld result (first_page self.old max_held
            (string_bytes token) size columns (map row_text rows) steps) self.old self.new }
    {
        let count = reply.row_count();
        if count <= size {
            return Ok(reply.first_page(alloc, size, None)?);
        }
        let number = self.free_number(max_held, (count - size) as u64)?;
        let first = reply.first_page(alloc, size, Some(number))?;
        let rows = reply.rest(alloc, size)?;
        drop(reply);
        // these rows stay, so others must have memory left
        test_headroom(alloc)?;
        self.keep(Page { token, size, rows })?;
        Ok(first)
    }

    /// The next rows of a page of the token's.
    #[tactic(auto, using(crate::proofs::Replies::pulled_last, crate::proofs::Replies::pull_refused))]
    pub fn pull(&mut self, alloc: Global, token: &str, number: u64) -> Result<ReplyBytes, Fault>
        ensures { GivesHeld result (pulled self.old token.now number) self.old self.new }
    {
        let page = self.page(token, number)?;
        if page.rows.len() <= page.size {
            let last = page.rows.pulled(alloc, page.size, None)?;
            self.remove(number);
            return Ok(last);
        }
        let next = page.rows.pulled(alloc, page.size, Some(number))?;
        self.skip(number);
        Ok(next)
    }

    /// Lets a page of the token's go. It takes no memory.
    #[tactic(auto, using(crate::proofs::Replies::dropped_page, crate::proofs::Replies::drop_refused))]
    pub fn drop_page(&mut self, token: &str, number: u64) -> Result<(), Fault>
        ensures { LeavesHeld result (dropped self.old token.now number) self.old self.new }
    {
        self.page(token, number)?;
        self.remove(number);
        Ok(())
    }

    /// The token that may pull the page of this number, if there is one.
    pub fn puller(&self, number: u64) -> Option<&str>
        ensures { (token : List ℕ) → option_map (λ t. t.now) result
            ≡ puller_of self.now token number }
    {
        match self.by_number.get(&number) {
            Some(page) => Some(page.token.as_str()),
            None => None,
        }
    }

    /// The number of the next page, if so many rows more may be held.
    fn free_number(&self, max_held: u64, more: u64) -> Result<u64, Fault>
        ensures { result ≡ number_for self.now max_held more }
    {
        if more > max_held || self.rows > max_held - more {
            return Err(Fault::HeldRowsQuota);
        }
        if self.next == GREATEST_NUMBER {
            return Err(Fault::IdsExhausted);
        }
        Ok(self.next)
    }

    /// Holds one page more, under the next number.
    fn keep(&mut self, page: Page) -> Result<(), Fault>
        requires { self.old.next < greatest_id }
        ensures ok { OnOk result (self.new ≡ held_more self.old page) }
        ensures err { OnErr result (self.new ≡ self.old) }
        ensures kind { IfErr result (λ e. e ≢ OutOfMemory
            → 2 ^ 64 ≤ held_rows self.old.pages + length page.rows) }
    {
        let more = page.rows.len() as u64;
        let Some(rows) = self.rows.checked_add(more) else {
            return Err(Fault::HeldRowsQuota);
        };
        self.by_number.insert(self.next, page)?;
        self.rows = rows;
        self.next += 1;
        Ok(())
    }

    /// The page of this number, if it is the token's.
    fn page(&self, token: &str, number: u64) -> Result<&Page, Fault>
        ensures { MatchResult result
            (λ page. page_of self.now token.now number ≡ Ok (shown (number, page.now)))
            (λ e. page_of self.now token.now number ≡ Err e) }
    {
        match self.by_number.get(&number) {
            Some(page) if page.token.as_str() == token => Ok(page),
            _ => Err(Fault::NoSuchPage),
        }
    }

    /// The page of this number is gone.
    fn remove(&mut self, number: u64)
        ensures { self.new ≡ record self.old { pages = without_page number self.old.pages } }
    {
        if let Some(page) = self.by_number.remove(&number) {
            self.rows -= page.rows.len() as u64;
        }
    }

    /// The next rows of the page of this number are gone.
    fn skip(&mut self, number: u64)
        ensures { (token : List ℕ) (p : held.Page) → page_of self.old token number ≡ Ok p
            → self.new ≡ record self.old {
              pages = with_rows number (drop p.size p.rows) self.old.pages;
            } }
    {
        if let Some(page) = self.by_number.get_mut(&number) {
            let before = page.rows.len();
            page.rows.skip(page.size);
            self.rows -= (before - page.rows.len()) as u64;
        }
    }
}
