//! A cache of plans under their texts and indexes, of which the last used stay.
ghost use Rattle.std.specs.Prelude.{◌≡◌, ◌≢◌, None, Some, IfOk, IfErr, MatchResult, Err, option_copied, string_bytes, take};
ghost use Rattle.std.specs.Map.{lookup};
ghost use Rattle.std.specs.NonZero.{non_zero_usize_get};
ghost use Rattle.pg_plan.specs.Catalogue.{catalogue_view};
ghost use Rattle.pg_cache.specs.Cache.{empty_cache, kept, cache_key, key_view, one_more, IsHit, IsMiss, MayKeep};
ghost use Rattle.pg_cache.specs.Keys.{key_eq};
ghost use Rattle.pg_meaning.specs.declared.fault.Fault.TheVariants.{OutOfMemory};
ghost use Rattle.pg_plan.specs.Plans.{IsPlanOfText};
ghost use Rattle.pg_meaning.specs.Texts.{text_checked};

use crate::digested::DigestedCatalogue;
use crate::key::Key;
use lru::LruCache;
use pg_headroom::test_headroom;
use pg_meaning::Fault;
use pg_plan::{Plan, plan_text};
use std::alloc::{AllocError, Global};
use std::hash::BuildHasher;
use std::marker::Model;
use std::num::NonZeroUsize;
use std::rc::Rc;

/// Plans under their texts and indexes, and how many look-ups found theirs. A refusal isn't kept.
#[derive(Drop)]
pub struct PlanCache<S: BuildHasher + Drop> {
    plans: LruCache<Key, Rc<Plan>, S>,
    hits: u64,
    misses: u64,
}

impl<S: BuildHasher + Drop> Model for PlanCache<S> {
    ghost use Rattle.std.specs.Prelude.{map};
    ghost use Rattle.std.specs.Coded.{codes};
    ghost use Rattle.pg_cache.specs.Cache.{Cache, entry_view, ArePlanned};
    ghost use Rattle.pg_plan.specs.Begins.{plan_from-prop};
    ghost use Rattle.pg_syntax_tree.specs.contracts.expression.Expression as expression;

    ghost Value = { Cache };

    ghost coded = { Prim.hlevel (codes, expression.the_row.coded, plan_from-prop) };

    ghost view = { λ c. record {
      entries = map entry_view c.plans.entries;
      capacity = c.plans.cap;
      hits = c.hits;
      misses = c.misses;
    } };

    ghost invariant = { λ c. ArePlanned (map entry_view c.plans.entries) };
}

impl<S: BuildHasher + Drop> PlanCache<S> {
    /// An empty cache of so many plans.
    pub fn new(alloc: Global, capacity: NonZeroUsize, hasher: S) -> Result<Self, AllocError>
        ensures { IfOk result (λ c. c ≡ empty_cache (non_zero_usize_get capacity)) }
    {
        let plans = LruCache::with_hasher(alloc, capacity, hasher)?;
        Ok(PlanCache {
            plans,
            hits: 0,
            misses: 0,
        })
    }

    /// The plan of a text where there are these indexes, which is kept from then on if there is memory for that, and some left
    /// for others. The text and the list become the key, so that nothing is copied.
    pub fn plan_for(
        &mut self,
        alloc: Global,
        text: String,
        catalogue: Rc<DigestedCatalogue>,
    ) -> Result<Rc<Plan>, Fault>
        ensures ok { IfOk result
            (λ p. IsPlanOfText (string_bytes text) (catalogue_view catalogue.value.items) p.value) }
        ensures err { IfErr result (λ e. e ≢ OutOfMemory
            → text_checked (string_bytes text) ≡ Err e) }
        ensures hit { (plan : _) → kept self.old (cache_key text catalogue) ≡ Some plan
            → IsHit self.old self.new (cache_key text catalogue) plan result }
        ensures miss { kept self.old (cache_key text catalogue) ≡ None
            → IsMiss self.old self.new (cache_key text catalogue) result }
    {
        let key = Key { text, catalogue };
        // One text is often asked again and again, and it is compared faster than it is hashed.
        if let Some(plan) = last_used(&self.plans, &key) {
            return share(&mut self.hits, plan);
        }
        if let Some(plan) = self.plans.get(&key) {
            return share(&mut self.hits, plan);
        }
        self.make_plan(alloc, key)
    }

    /// A plan for a key that has none here.
    #[inline(never)]
    fn make_plan(&mut self, alloc: Global, key: Key) -> Result<Rc<Plan>, Fault>
        requires { kept self.old (key_view key) ≡ None }
        ensures ok { IfOk result (λ p. IsPlanOfText (key_view key).0 (key_view key).1 p.value) }
        ensures err { IfErr result (λ e. e ≢ OutOfMemory → text_checked (key_view key).0 ≡ Err e) }
        ensures miss { IsMiss self.old self.new (key_view key) result }
    {
        self.misses = self.misses.saturating_add(1);
        let plan = plan_text(alloc, key.text.as_str(), key.catalogue.list())?;
        let plan = Rc::new(alloc, plan)?;
        if test_headroom(alloc).is_ok() {
            self.keep(key, &plan);
        }
        Ok(plan)
    }

    /// Puts a plan first, if there is memory for that.
    fn keep(&mut self, key: Key, plan: &Rc<Plan>)
        requires absent { kept self.old (key_view key) ≡ None }
        requires planned { IsPlanOfText (key_view key).0 (key_view key).1 plan.now.value }
        ensures { MayKeep self.old self.new (key_view key) plan.now.value }
    {
        if let Ok(plan) = plan.clone() {
            drop(self.plans.put(key, plan));
        }
    }

    /// How many look-ups found their plan, and how many didn't.
    pub fn stats(&self) -> (u64, u64)
        ensures { result ≡ (self.now.hits, self.now.misses) }
    {
        (self.hits, self.misses)
    }
}

/// The plan that was used last, if it is kept under this key.
fn last_used<'a, S: BuildHasher>(
    plans: &'a LruCache<Key, Rc<Plan>, S>,
    key: &Key,
) -> Option<&'a Rc<Plan>>
    ensures { option_copied result ≡ lookup (key_eq key.now) (take 1 plans.now.entries) }
{
    match plans.peek_mru() {
        Some((last, plan)) if key.is_same(last) => Some(plan),
        _ => None,
    }
}

/// A kept plan, counted as found.
fn share(hits: &mut u64, plan: &Rc<Plan>) -> Result<Rc<Plan>, Fault>
    ensures count { hits.new ≡ one_more hits.old }
    ensures answer { MatchResult result (λ p. p.value ≡ plan.now.value) (λ e. e ≡ OutOfMemory) }
{
    *hits = hits.saturating_add(1);
    Ok(plan.clone()?)
}
