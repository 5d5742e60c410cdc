//! Which tenant a token belongs to.
ghost use Rattle.std.specs.Prelude.{◌≡◌, ℕ, List, Some, if◌then◌else◌, IfOk, OnOk};
ghost use Rattle.std.specs.BTreeMap.{get_by_text};
ghost use Rattle.pg_meaning.specs.Names.{is_among};
ghost use Rattle.pg_server.specs.Tokens.{place_in, TellsTenants};
ghost use Rattle.pg_tenant.specs.Settings.{token_texts};

use pg_tenant::TenantSettings;
use std::alloc::{AllocError, Global};
use std::collections::BTreeMap;

/// The places of tenants by the texts of their tokens.
#[derive(Drop)]
pub(crate) struct TokenPlaces {
    places: BTreeMap<String, usize>,
}

impl TokenPlaces {
    /// The places of these tenants. Of two that have a token the first counts.
    pub(crate) fn of(alloc: Global, tenants: &[TenantSettings]) -> Result<TokenPlaces, AllocError>
        ensures { IfOk result (λ tokens. TellsTenants tokens tenants.now) }
    {
        let mut tokens = TokenPlaces {
            places: BTreeMap::new(alloc),
        };
        let mut place = tenants.len();
        // from the last tenant on, so that the first of two stays
        while place > 0 {
            place -= 1;
            tokens.put(alloc, &tenants[place], place)?;
        }
        Ok(tokens)
    }

    /// Each token of the tenant has this place from now on.
    fn put(
        &mut self,
        alloc: Global,
        tenant: &TenantSettings,
        place: usize,
    ) -> Result<(), AllocError>
        ensures { OnOk result ((token : List ℕ)
            → place_in self.new token ≡ (if is_among (token_texts tenant.now) token then Some place
            else place_in self.old token)) }
    {
        for token in tenant.tokens() {
            let text = String::from_str(alloc, token.text())?;
            self.places.insert(text, place)?;
        }
        Ok(())
    }

    /// Where the tenant with this token stands.
    pub(crate) fn place(&self, token: &str) -> Option<usize>
        ensures { result ≡ place_in self.now token.now }
    {
        self.places.get(token).copied()
    }
}
