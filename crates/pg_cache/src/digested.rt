//! A catalogue with its digest.
ghost use Rattle.std.specs.Prelude.{◌≡◌, ◌++◌, fold};
ghost use Rattle.std.specs.Cmp.{on_equiv, partial_equiv_from_equiv};
ghost use Rattle.std.specs.Cmp.Lexicographic.{lists_equiv, pointwise};
ghost use Rattle.pg_cache.specs.Digests.{digest_of, digest_writes, index_eq, index_equiv, marked};
ghost use Rattle.pg_plan.specs.Catalogue.{catalogue_view};
ghost use Rattle.sha2.specs.Hashers.{Holds256};

use pg_plan::Catalogue;
use sha2::{Digest, Sha256};
use std::hash::Hasher;
use std::marker::Model;

/// A catalogue with its digest (SHA-256), which is made once: whoever looks a plan up feeds it to the keyed hash in place of all names.
#[derive(Drop)]
pub struct DigestedCatalogue {
    list: Catalogue,
    digest: [u8; 32],
}

impl Model for DigestedCatalogue {
    ghost use Rattle.std.specs.Prelude.{◌≡◌, Vec, String};
    ghost use Rattle.std.specs.declared.alloc.Global.{Global};
    ghost use Rattle.pg_cache.specs.Digests.{digest_of};
    ghost use Rattle.pg_plan.specs.Catalogue.{catalogue_view};

    ghost Value = { Vec (String Global × String Global) Global };

    ghost view = { λ c. c.list };

    ghost invariant = { λ c. c.digest ≡ digest_of (catalogue_view c.list.items) };
}

impl DigestedCatalogue {
    /// The list as it is, and its digest.
    pub fn new(list: Catalogue) -> DigestedCatalogue
        ensures { result ≡ list }
    {
        let digest = digest_list(&list);
        DigestedCatalogue { list, digest }
    }

    /// The list alone.
    pub fn list(&self) -> &Catalogue
        ensures { result.now ≡ self.now }
    {
        &self.list
    }

    /// Writes the digest, or nothing where the list is empty, so that a tenant without indexes pays nothing.
    pub(crate) fn write<H: Hasher>(&self, state: &mut H)
        ensures { state.new
            ≡ fold H.write state.old (digest_writes (catalogue_view self.now.items)) }
    {
        if !self.list.is_empty() {
            state.write(self.digest.as_slice());
        }
    }
}

fn digest_list(list: &Catalogue) -> [u8; 32]
    ensures { result ≡ digest_of (catalogue_view list.now.items) }
{
    let mut hasher = Sha256::new();
    for (label, key) in list {
        feed(&mut hasher, label.as_str());
        feed(&mut hasher, key.as_str());
    }
    hasher.finalize()
}

impl PartialEq for DigestedCatalogue {
    ghost eq = { λ x y. pointwise index_eq x.items y.items };

    ghost laws = { partial_equiv_from_equiv (on_equiv (λ c. c.items) (lists_equiv index_equiv)) };

    fn eq(&self, other: &DigestedCatalogue) -> bool {
        self.list == other.list
    }
}

impl Eq for DigestedCatalogue {
    ghost laws = { on_equiv (λ c. c.items) (lists_equiv index_equiv) };
}

/// Feeds a text, and a byte that no text has.
fn feed(hasher: &mut Sha256, text: &str)
    ensures { (fed : _) → Holds256 hasher.old fed → Holds256 hasher.new (fed ++ marked text.now) }
{
    hasher.update(text.as_bytes());
    hasher.update([255]);
}
