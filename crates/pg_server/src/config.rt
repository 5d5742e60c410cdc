//! The configuration of a server.
ghost use Rattle.std.specs.Prelude.{◌≡◌, ◌≢◌, ◌<◌, ◌≤◌, ℕ, ◌++◌, [], length, IfOk, IfErr, OnOk, Ok, Err, Some, None, map, string_bytes};
ghost use Rattle.std.specs.NonZero.{non_zero_usize_get};
ghost use Rattle.pg_server.specs.Settings.{all_tokens};
ghost use Rattle.pg_tenant.specs.Settings.{token_texts as texts_of};
ghost use Rattle.pg_value.specs.Texts.{has_duplicate as seen_again};
ghost use Rattle.pg_server.specs.Configuration.{configuration, HasTokensOnce, max_tenants, in_range as seen_in_range, tenant_in_range as seen_tenant, tenants_in_range as seen_tenants, settings_of_data, settings_of_draft};
ghost use Rattle.serde_json.specs.View.{view};
ghost use Rattle.pg_server.specs.declared.config_fault.ConfigFault.TheVariants.{OutOfRange, Memory};

use crate::config_fault::ConfigFault;
use crate::draft::{Draft, TenantDraft, draft_of};
use pg_meter::MaxElements;
use pg_tenant::TenantSettings;
use pg_value::has_duplicate;
use serde_json::Value as Json;
use std::alloc::{AllocError, Global};
use std::marker::Model;
use std::num::NonZeroUsize;

const MAX_CACHE: u64 = 65_536;

const MAX_TENANTS: usize = 4_096;

const MAX_QUOTA: u64 = 1_000_000_000;

/// What a server begins with: a size for its plan cache, and its tenants, of which there is one at least, with their names. No two tokens are
/// equal, and names may be.
#[derive(Drop)]
pub struct Config {
    cache: NonZeroUsize,
    tenants: Vec<TenantSettings>,
    names: Vec<String>,
}

impl Model for Config {
    ghost use Rattle.std.specs.Prelude.{◌<◌, ◌≤◌, length, map, string_bytes};
    ghost use Rattle.std.specs.NonZero.{non_zero_usize_get};
    ghost use Rattle.pg_server.specs.Settings.{Settings};
    ghost use Rattle.pg_server.specs.Configuration.{HasTokensOnce, max_tenants};

    ghost Value = { Settings };

    ghost view = { λ c. record {
      cache = non_zero_usize_get c.cache;
      tenants = c.tenants.items;
      names = map string_bytes c.names.items;
    } };

    ghost invariant = { λ c. HasTokensOnce c.tenants.items
        × (0 < length c.tenants.items) × (length c.tenants.items ≤ max_tenants) };
}

impl Config {
    /// The configuration that the bytes of a file are, or the first fault in them.
    pub fn read(alloc: Global, bytes: &[u8]) -> Result<Config, ConfigFault>
        ensures ok { IfOk result (λ c. configuration bytes.now ≡ Ok c) }
        ensures fault { IfErr result (λ e. e ≢ Memory → configuration bytes.now ≡ Err e) }
    {
        let Ok(text) = simdutf8::basic::from_utf8(bytes) else {
            return Err(ConfigFault::NotJson);
        };
        match Json::from_str(alloc, text) {
            Ok(value) => config_of(alloc, &value),
            Err(e) if e.is_memory() => Err(ConfigFault::Memory),
            Err(_) => Err(ConfigFault::NotJson),
        }
    }

    /// The names of the tenants, by their places.
    pub fn names(&self) -> &[String]
        ensures { map string_bytes result.now ≡ self.now.names }
    {
        self.names.as_slice()
    }

    /// How many plans the cache holds, and what each tenant begins with.
    pub(crate) fn into_parts(self) -> (NonZeroUsize, Vec<TenantSettings>)
        ensures cache { non_zero_usize_get result.0 ≡ self.cache }
        ensures tenants { result.1.items ≡ self.tenants }
        ensures distinct { HasTokensOnce result.1.items }
        ensures some { 0 < length result.1.items }
        ensures few { length result.1.items ≤ max_tenants }
    {
        (self.cache, self.tenants)
    }
}

fn config_of(alloc: Global, value: &Json) -> Result<Config, ConfigFault>
    ensures ok { IfOk result (λ c. settings_of_data (view value.now) ≡ Ok c) }
    ensures fault { IfErr result (λ e. e ≢ Memory → settings_of_data (view value.now) ≡ Err e) }
{
    let draft = draft_of(alloc, value)?;
    checked(alloc, draft)
}

/// Tests the numbers, and then the tokens.
fn checked(alloc: Global, draft: Draft) -> Result<Config, ConfigFault>
    ensures ok { IfOk result (λ c. settings_of_draft draft ≡ Ok c) }
    ensures fault { IfErr result (λ e. e ≢ Memory → settings_of_draft draft ≡ Err e) }
{
    let cache = in_range(draft.cache, 1, MAX_CACHE)?;
    let Some(cache) = NonZeroUsize::new(cache as usize) else {
        return Err(ConfigFault::OutOfRange);
    };
    if draft.tenants.is_empty() || draft.tenants.len() > MAX_TENANTS {
        return Err(ConfigFault::OutOfRange);
    }
    let tenants = tenants_in_range(alloc, draft.tenants)?;
    if has_token_twice(alloc, &tenants)? {
        return Err(ConfigFault::TokenTwice);
    }
    Ok(Config {
        cache,
        tenants,
        names: draft.names,
    })
}

fn tenants_in_range(
    alloc: Global,
    drafts: Vec<TenantDraft>,
) -> Result<Vec<TenantSettings>, ConfigFault>
    ensures ok { IfOk result (λ v. seen_tenants drafts.items ≡ Some v.items) }
    ensures kind { IfErr result (λ e. e ≢ Memory → e ≡ OutOfRange) }
    ensures refused { IfErr result (λ e. e ≢ Memory → seen_tenants drafts.items ≡ None) }
{
    let mut tenants = Vec::new(alloc);
    for draft in drafts {
        tenants.push(tenant_in_range(draft)?)?;
    }
    Ok(tenants)
}

fn tenant_in_range(draft: TenantDraft) -> Result<TenantSettings, ConfigFault>
    ensures ok { IfOk result (λ t. seen_tenant draft ≡ Some t) }
    ensures err { IfErr result (λ e. (e ≡ OutOfRange) × (seen_tenant draft ≡ None)) }
{
    let max_steps = in_range(draft.max_steps, 0, MAX_QUOTA)?;
    let max_elements = in_range(draft.max_elements, 0, MAX_QUOTA)?;
    let max_held = in_range(draft.max_held, 0, MAX_QUOTA)?;
    Ok(TenantSettings::new(
        max_steps,
        MaxElements::new(max_elements),
        max_held,
        draft.tokens,
    ))
}

fn in_range(number: i64, least: u64, most: u64) -> Result<u64, ConfigFault>
    ensures ok { IfOk result (λ n. seen_in_range least most number ≡ Some n) }
    ensures within { IfOk result (λ n. n ≤ most) }
    ensures err { IfErr result (λ e. (e ≡ OutOfRange) × (seen_in_range least most number ≡ None)) }
{
    if number < 0 {
        return Err(ConfigFault::OutOfRange);
    }
    let n = number as u64;
    if n < least || n > most {
        return Err(ConfigFault::OutOfRange);
    }
    Ok(n)
}

fn has_token_twice(alloc: Global, tenants: &[TenantSettings]) -> Result<bool, AllocError>
    ensures { IfOk result (λ b. b ≡ seen_again [] (all_tokens tenants.now)) }
{
    let mut texts = Vec::new(alloc);
    for tenant in tenants {
        push_texts(&mut texts, tenant)?;
    }
    has_duplicate(alloc, &texts)
}

/// Puts the texts of the tenant's tokens behind the others.
fn push_texts<'a>(texts: &mut Vec<&'a str>, tenant: &'a TenantSettings) -> Result<(), AllocError>
    ensures { OnOk result (map (λ t. t.now) texts.new.items
        ≡ map (λ t. t.now) texts.old.items ++ texts_of tenant.now) }
{
    for token in tenant.tokens() {
        texts.push(token.text())?;
    }
    Ok(())
}
