//! What a configuration sets for a tenant.
ghost use Rattle.std.specs.Prelude.{◌≡◌, ◌&&◌, string_bytes, is_some, IfSome};
ghost use Rattle.std.specs.Str.{bytes_eq};
ghost use Rattle.pg_tenant.specs.Settings.{is_write, may_write, standing_token};
ghost use Rattle.pg_tenant.specs.TenantStates.{token_at};

use pg_meter::MaxElements;
use std::marker::Model;

/// What the requests with a token may do.
#[derive(Clone, Copy)]
pub enum Rights {
    Read,
    Write,
}

/// A text that a request shows, and what such requests may do.
#[derive(Drop)]
pub struct TokenSettings {
    text: String,
    rights: Rights,
}

impl Model for TokenSettings {
    ghost use Rattle.std.specs.Prelude.{string_bytes};
    ghost use Rattle.pg_tenant.specs.Settings.{TokenSettings as Seen};

    ghost Value = { Seen };

    ghost view = { λ t. record { text = string_bytes t.text; rights = t.rights } };
}

impl TokenSettings {
    /// A token by its text, which a request shows, and what it may do.
    pub fn new(text: String, rights: Rights) -> TokenSettings
        ensures { result ≡ record { text = string_bytes text; rights = rights } }
    {
        TokenSettings { text, rights }
    }

    /// The token itself, so a secret.
    pub fn text(&self) -> &str
        ensures { result.now ≡ self.now.text }
    {
        self.text.as_str()
    }

    fn may_write(&self) -> bool
        ensures { result ≡ is_write self.now.rights }
    {
        matches!(self.rights, Rights::Write)
    }

    /// Whether it is this text, and lets requests change the graph.
    fn lets_write(&self, text: &str) -> bool
        ensures { result ≡ bytes_eq self.now.text text.now && is_write self.now.rights }
    {
        self.text.as_str() == text && self.may_write()
    }
}

/// What a tenant may use, and the tokens of its requests.
#[derive(Drop)]
pub struct TenantSettings {
    max_steps: u64,
    max_elements: MaxElements,
    max_held: u64,
    tokens: Vec<TokenSettings>,
}

impl Model for TenantSettings {
    ghost use Rattle.pg_tenant.specs.Settings.{TenantSettings as Seen};

    ghost Value = { Seen };

    ghost view = { λ t. record {
      max_steps = t.max_steps;
      max_elements = t.max_elements;
      max_held = t.max_held;
      tokens = t.tokens.items;
    } };
}

impl TenantSettings {
    /// The quotas, in steps a request, in nodes and relationships together, and in rows that may
    /// wait to be pulled, and the tokens.
    pub fn new(
        max_steps: u64,
        max_elements: MaxElements,
        max_held: u64,
        tokens: Vec<TokenSettings>,
    ) -> TenantSettings
        ensures { result ≡ record {
          max_steps = max_steps;
          max_elements = max_elements;
          max_held = max_held;
          tokens = tokens.items;
        } }
    {
        TenantSettings {
            max_steps,
            max_elements,
            max_held,
            tokens,
        }
    }

    /// How many steps one request may use.
    pub fn max_steps(&self) -> u64
        ensures { result ≡ self.now.max_steps }
    {
        self.max_steps
    }

    /// How many nodes and relationships together the tenant's graph may have.
    pub fn max_elements(&self) -> MaxElements
        ensures { result ≡ self.now.max_elements }
    {
        self.max_elements
    }

    /// How many rows of queries may wait to be pulled.
    pub(crate) fn max_held(&self) -> u64
        ensures { result ≡ self.now.max_held }
    {
        self.max_held
    }

    /// The tokens in the order of the configuration.
    pub fn tokens(&self) -> &[TokenSettings]
        ensures { result.now ≡ self.now.tokens }
    {
        self.tokens.as_slice()
    }

    /// Whether requests with this token may change the graph.
    pub fn may_write(&self, text: &str) -> bool
        ensures { result ≡ may_write self.now text.now }
    {
        self.writer(text).is_some()
    }

    /// The place of the first token that is this text and may write.
    pub(crate) fn writer(&self, text: &str) -> Option<usize>
        ensures may { is_some result ≡ may_write self.now text.now }
        ensures is { IfSome result (λ place. token_at self.now place ≡ text.now) }
    {
        let mut place = 0;
        for token in &self.tokens {
            if token.lets_write(text) {
                return Some(place);
            }
            place += 1;
        }
        None
    }

    /// The text of the token at this place, which is empty where there is none.
    pub(crate) fn token_at(&self, place: usize) -> &str
        ensures { result.now ≡ token_at self.now place }
    {
        match self.tokens.get(place) {
            Some(token) => token.text(),
            None => "",
        }
    }

    /// The text of the first token that may write, or else of the first one; it is empty where there is none.
    pub(crate) fn standing_token(&self) -> &str
        ensures { result.now ≡ standing_token self.now }
    {
        for token in &self.tokens {
            if token.may_write() {
                return token.text();
            }
        }
        self.token_at(0)
    }
}
