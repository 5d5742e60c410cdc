//! A configuration whose shape is right and whose numbers may be any.
ghost use Rattle.std.specs.Prelude.{◌≡◌, ◌≢◌, IfOk, IfErr, Some, None, map, bytes_eq, option_map, option_and_then, string_bytes};
ghost use Rattle.pg_json.specs.Requests.{has_only as seen_only, is_one_of as seen_one_of};
ghost use Rattle.serde_json.specs.Find.{as_object};
ghost use Rattle.serde_json.specs.View.{view, items_view, members_view};
ghost use Rattle.pg_server.specs.Draft.{text_at as seen_text, number_at as seen_number, number_or_zero as seen_or_zero, list_at as seen_list, each, rights_of as seen_rights, token_of as seen_token, tenant_of as seen_tenant, draft_of as seen_draft, name_of as seen_name, is_object_of};
ghost use Rattle.pg_server.specs.declared.config_fault.ConfigFault.TheVariants.{WrongShape, Memory};

use crate::config_fault::ConfigFault;
use pg_tenant::{Rights, TokenSettings};
use serde_json::{Map, Value as Json};
use std::alloc::Global;
use std::marker::Model;

#[derive(Drop)]
pub(crate) struct TenantDraft {
    pub(crate) max_steps: i64,
    pub(crate) max_elements: i64,
    pub(crate) max_held: i64,
    pub(crate) tokens: Vec<TokenSettings>,
}

impl Model for TenantDraft {
    ghost use Rattle.pg_server.specs.Draft.{TenantDraft as Seen};

    ghost Value = { Seen };

    ghost view = { λ t. record {
      max_steps = t.max_steps;
      max_elements = t.max_elements;
      max_held = t.max_held;
      tokens = t.tokens.items;
    } };
}

#[derive(Drop)]
pub(crate) struct Draft {
    pub(crate) cache: i64,
    pub(crate) tenants: Vec<TenantDraft>,
    // by their places
    pub(crate) names: Vec<String>,
}

impl Model for Draft {
    ghost use Rattle.std.specs.Prelude.{map, string_bytes};
    ghost use Rattle.pg_server.specs.Draft.{Draft as Seen};

    ghost Value = { Seen };

    ghost view = { λ d. record {
      cache = d.cache;
      tenants = d.tenants.items;
      names = map string_bytes d.names.items;
    } };
}

/// The configuration that a value of JSON is.
pub(crate) fn draft_of(alloc: Global, value: &Json) -> Result<Draft, ConfigFault>
    ensures ok { IfOk result (λ d. seen_draft (view value.now) ≡ Some d) }
    ensures kind { IfErr result (λ e. e ≢ Memory → e ≡ WrongShape) }
    ensures refused { IfErr result (λ e. e ≢ Memory → seen_draft (view value.now) ≡ None) }
{
    if !is_object_with(value, &["cache", "tenants"]) {
        return Err(ConfigFault::WrongShape);
    }
    let cache = number_at(value, "cache")?;
    let items = list_at(value, "tenants")?;
    let tenants = tenants_of(alloc, items)?;
    let names = names_of(alloc, items)?;
    Ok(Draft {
        cache,
        tenants,
        names,
    })
}

fn tenants_of(alloc: Global, items: &Vec<Json>) -> Result<Vec<TenantDraft>, ConfigFault>
    ensures ok { IfOk result (λ v. each seen_tenant (items_view items.now.items) ≡ Some v.items) }
    ensures kind { IfErr result (λ e. e ≢ Memory → e ≡ WrongShape) }
    ensures refused { IfErr result (λ e. e ≢ Memory
        → each seen_tenant (items_view items.now.items) ≡ None) }
{
    let mut tenants = Vec::new(alloc);
    for item in items {
        tenants.push(tenant_of(alloc, item)?)?;
    }
    Ok(tenants)
}

fn names_of(alloc: Global, items: &Vec<Json>) -> Result<Vec<String>, ConfigFault>
    ensures ok { IfOk result
        (λ v. each seen_name (items_view items.now.items) ≡ Some (map string_bytes v.items)) }
    ensures kind { IfErr result (λ e. e ≢ Memory → e ≡ WrongShape) }
    ensures refused { IfErr result (λ e. e ≢ Memory
        → each seen_name (items_view items.now.items) ≡ None) }
{
    let mut names = Vec::new(alloc);
    for item in items {
        names.push(name_of(alloc, item)?)?;
    }
    Ok(names)
}

fn name_of(alloc: Global, value: &Json) -> Result<String, ConfigFault>
    ensures ok { IfOk result (λ t. seen_name (view value.now) ≡ Some (string_bytes t)) }
    ensures kind { IfErr result (λ e. e ≢ Memory → e ≡ WrongShape) }
    ensures refused { IfErr result (λ e. e ≢ Memory → seen_name (view value.now) ≡ None) }
{
    let text = text_at(value, "name")?;
    Ok(String::from_str(alloc, text)?)
}

fn tenant_of(alloc: Global, value: &Json) -> Result<TenantDraft, ConfigFault>
    ensures ok { IfOk result (λ t. seen_tenant (view value.now) ≡ Some t) }
    ensures kind { IfErr result (λ e. e ≢ Memory → e ≡ WrongShape) }
    ensures refused { IfErr result (λ e. e ≢ Memory → seen_tenant (view value.now) ≡ None) }
{
    if !is_object_with(
        value,
        &["name", "max_steps", "max_elements", "max_held", "tokens"],
    ) {
        return Err(ConfigFault::WrongShape);
    }
    text_at(value, "name")?;
    let max_steps = number_at(value, "max_steps")?;
    let max_elements = number_at(value, "max_elements")?;
    let max_held = number_or_zero(value.get("max_held"))?;
    let tokens = tokens_of(alloc, list_at(value, "tokens")?)?;
    Ok(TenantDraft {
        max_steps,
        max_elements,
        max_held,
        tokens,
    })
}

fn tokens_of(alloc: Global, items: &Vec<Json>) -> Result<Vec<TokenSettings>, ConfigFault>
    ensures ok { IfOk result (λ v. each seen_token (items_view items.now.items) ≡ Some v.items) }
    ensures kind { IfErr result (λ e. e ≢ Memory → e ≡ WrongShape) }
    ensures refused { IfErr result (λ e. e ≢ Memory
        → each seen_token (items_view items.now.items) ≡ None) }
{
    let mut tokens = Vec::new(alloc);
    for item in items {
        tokens.push(token_of(alloc, item)?)?;
    }
    Ok(tokens)
}

fn token_of(alloc: Global, value: &Json) -> Result<TokenSettings, ConfigFault>
    ensures ok { IfOk result (λ t. seen_token (view value.now) ≡ Some t) }
    ensures kind { IfErr result (λ e. e ≢ Memory → e ≡ WrongShape) }
    ensures refused { IfErr result (λ e. e ≢ Memory → seen_token (view value.now) ≡ None) }
{
    if !is_object_with(value, &["token", "rights"]) {
        return Err(ConfigFault::WrongShape);
    }
    let text = text_at(value, "token")?;
    if text.is_empty() {
        return Err(ConfigFault::WrongShape);
    }
    let rights = rights_of(text_at(value, "rights")?)?;
    Ok(TokenSettings::new(String::from_str(alloc, text)?, rights))
}

fn rights_of(text: &str) -> Result<Rights, ConfigFault>
    ensures ok { IfOk result (λ r. seen_rights text.now ≡ Some r) }
    ensures err { IfErr result (λ e. (e ≡ WrongShape) × (seen_rights text.now ≡ None)) }
{
    match text {
        "read" => Ok(Rights::Read),
        "write" => Ok(Rights::Write),
        _ => Err(ConfigFault::WrongShape),
    }
}

fn text_at<'a>(value: &'a Json, key: &str) -> Result<&'a str, ConfigFault>
    ensures ok { IfOk result (λ t. seen_text key.now (view value.now) ≡ Some t.now) }
    ensures err { IfErr result
        (λ e. (e ≡ WrongShape) × (seen_text key.now (view value.now) ≡ None)) }
{
    match value.get(key).and_then(Json::as_str) {
        Some(text) => Ok(text),
        None => Err(ConfigFault::WrongShape),
    }
}

fn number_at(value: &Json, key: &str) -> Result<i64, ConfigFault>
    ensures ok { IfOk result (λ n. seen_number key.now (view value.now) ≡ Some n) }
    ensures err { IfErr result
        (λ e. (e ≡ WrongShape) × (seen_number key.now (view value.now) ≡ None)) }
{
    match value.get(key).and_then(Json::as_i64) {
        Some(number) => Ok(number),
        None => Err(ConfigFault::WrongShape),
    }
}

/// A number at a key, and zero where the key is missing.
fn number_or_zero(given: Option<&Json>) -> Result<i64, ConfigFault>
    ensures ok { IfOk result
        (λ n. seen_or_zero (option_map (λ v. view v.now) given.entry) ≡ Some n) }
    ensures err { IfErr result
        (λ e. (e ≡ WrongShape) × (seen_or_zero (option_map (λ v. view v.now) given.entry) ≡ None)) }
{
    let Some(value) = given else {
        return Ok(0);
    };
    match value.as_i64() {
        Some(number) => Ok(number),
        None => Err(ConfigFault::WrongShape),
    }
}

fn list_at<'a>(value: &'a Json, key: &str) -> Result<&'a Vec<Json>, ConfigFault>
    ensures ok { IfOk result
        (λ v. seen_list key.now (view value.now) ≡ Some (items_view v.now.items)) }
    ensures err { IfErr result
        (λ e. (e ≡ WrongShape) × (seen_list key.now (view value.now) ≡ None)) }
{
    match value.get(key).and_then(Json::as_array) {
        Some(items) => Ok(items),
        None => Err(ConfigFault::WrongShape),
    }
}

/// An object that has no key but these.
fn is_object_with(value: &Json, keys: &[&str]) -> bool
    ensures { result ≡ is_object_of (map (λ k. k.now) keys.now) (as_object (view value.now)) }
{
    match value.as_object() {
        Some(members) => has_only(members, keys),
        None => false,
    }
}

fn has_only(members: &Map<String, Json>, keys: &[&str]) -> bool
    ensures { result ≡ seen_only (map (λ k. k.now) keys.now) (members_view members.now.entries) }
{
    for (key, _) in members.iter() {
        if !is_one_of(key.as_str(), keys) {
            return false;
        }
    }
    true
}

fn is_one_of(key: &str, keys: &[&str]) -> bool
    ensures { result ≡ seen_one_of (map (λ k. k.now) keys.now) key.now }
{
    for one in keys {
        if key == *one {
            return true;
        }
    }
    false
}
