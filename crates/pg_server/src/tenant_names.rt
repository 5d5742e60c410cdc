//! The names of tenants, for what outlasts their tokens.
ghost use Rattle.std.specs.Prelude.{◌≡◌, ◌≤◌, ℕ, [], false, bytes_eq, is_some, length, map, not, position, slice_index_or, string_bytes, IfOk, IfSome};
ghost use Rattle.pg_server.specs.TenantNames.{AreWithin};
ghost use Rattle.pg_value.specs.Texts.{has_duplicate as seen_again};

use crate::config::Config;
use pg_value::has_duplicate;
use std::alloc::{AllocError, Global};
use std::marker::Model;

/// The names of a server's tenants, by their places. No two are equal.
#[derive(Drop)]
pub struct TenantNames {
    names: Vec<String>,
    // the length of the longest
    longest: usize,
}

impl Model for TenantNames {
    ghost use Rattle.std.specs.Prelude.{◌≡◌, false, ℕ, List, [], map, string_bytes};
    ghost use Rattle.pg_server.specs.TenantNames.{AreWithin};
    ghost use Rattle.pg_value.specs.Texts.{has_duplicate};

    ghost Value = { List (List ℕ) };

    ghost view = { λ n. map string_bytes n.names.items };

    ghost invariant = { λ n. (has_duplicate [] (map string_bytes n.names.items) ≡ false)
        × AreWithin n.longest (map string_bytes n.names.items) };
}

impl TenantNames {
    /// The names of a configuration's tenants, or none where two of them are equal.
    pub fn of(alloc: Global, config: &Config) -> Result<Option<TenantNames>, AllocError>
        ensures names { IfOk result (λ found. IfSome found (λ names. names ≡ config.now.names)) }
        ensures once { IfOk result (λ found. is_some found ≡ not (seen_again [] config.now.names)) }
    {
        let names = copied(alloc, config.names())?;
        if has_name_twice(alloc, &names)? {
            return Ok(None);
        }
        let longest = longest_of(&names);
        Ok(Some(TenantNames { names, longest }))
    }

    /// The name of the tenant at a place, which is empty where there is none.
    pub fn name(&self, place: usize) -> &str
        ensures { result.now ≡ slice_index_or self.now place [] }
    {
        match self.names.get(place) {
            Some(name) => name.as_str(),
            None => "",
        }
    }

    /// How long a name is at most, in bytes.
    pub fn longest(&self) -> usize
        ensures { AreWithin result self.now }
    {
        self.longest
    }

    /// The place of the tenant with this name.
    #[tactic(auto, using(crate::proofs::TenantNameLemmas::first_named))]
    pub fn place(&self, name: &[u8]) -> Option<usize>
        ensures found { result ≡ position (bytes_eq name.now) self.now }
        ensures once { seen_again [] self.now ≡ false }
    {
        for (place, one) in self.names.iter().enumerate() {
            if name == one.as_bytes() {
                return Some(place);
            }
        }
        None
    }
}

fn copied(alloc: Global, names: &[String]) -> Result<Vec<String>, AllocError>
    ensures { IfOk result (λ v. map string_bytes v.items ≡ map string_bytes names.now) }
{
    let mut copies = Vec::with_capacity(alloc, names.len())?;
    for name in names {
        copies.push(String::from_str(alloc, name.as_str())?)?;
    }
    Ok(copies)
}

fn has_name_twice(alloc: Global, names: &[String]) -> Result<bool, AllocError>
    ensures { IfOk result (λ b. b ≡ seen_again [] (map string_bytes names.now)) }
{
    let mut texts = Vec::with_capacity(alloc, names.len())?;
    for name in names {
        texts.push(name.as_str())?;
    }
    has_duplicate(alloc, &texts)
}

fn longest_of(names: &[String]) -> usize
    ensures { AreWithin result (map string_bytes names.now) }
{
    let mut longest = 0;
    for name in names {
        longest = longest.max(name.len());
    }
    longest
}
