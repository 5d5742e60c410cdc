//! From a body to a request.
ghost use Rattle.std.specs.Prelude.{◌≡◌, ◌≢◌, IfOk, IfErr, None, Some, List, ℕ, option_map, option_and_then, string_bytes, map};
ghost use Rattle.serde_json.specs.Read.{read};
ghost use Rattle.serde_json.specs.View.{view, members_view};
ghost use Rattle.serde_json.specs.Find.{as_object, get_member};
ghost use Rattle.pg_json.specs.Parameters.{parameters_in as spec_parameters_in};
ghost use Rattle.pg_json.specs.Requests.{meaning, request_of, object_request, parameters_given, page_given as spec_page_given, number_in as spec_number_in, query_of, of_token, index_of, of_page, query_keys, token_keys, index_keys, page_keys, with_only, name_at, Request, text_at as spec_text_at, has_only as spec_has_only, is_one_of as spec_is_one_of};
ghost use Rattle.pg_json.specs.Bodies.{request_view};
ghost use Rattle.pg_json.specs.Operations.{asked_by};
ghost use Rattle.pg_value_core.specs.View.{entries_view};
ghost use Rattle.pg_meaning.specs.declared.fault.Fault.TheVariants.{BadRequest, OutOfMemory};

use crate::fields::{FastParse, look, request_with};
use crate::page::GREATEST_PAGE;
use crate::parameters::MAX_DEPTH;
use crate::request::RequestBody;
use crate::scratch::RequestScratch;
use crate::unread::Unread;
use crate::values::entries_from;
use pg_meaning::Fault;
use pg_value_core::{Parameters, Value as Parameter};
use serde_json::{Map, Value};
use std::alloc::Global;
use std::collections::BTreeMap;

const GREATEST_NUMBER: u64 = 9_223_372_036_854_775_807;

/// The request that a frame's body is.
#[tactic(auto, unfolding(crate::specs::Requests::meaning))]
pub fn read_request(
    alloc: Global,
    scratch: &mut RequestScratch,
    body: &[u8],
) -> Result<RequestBody, Fault>
    ensures ok { IfOk result (λ r. meaning body.now ≡ Some (request_view r)) }
    ensures kind { IfErr result (λ e. e ≢ OutOfMemory → e ≡ BadRequest) }
    ensures refused { IfErr result (λ e. e ≢ OutOfMemory → meaning body.now ≡ None) }
{
    let Ok(text) = simdutf8::basic::from_utf8(body) else {
        return Err(Fault::BadRequest);
    };
    match look(alloc, text, &mut scratch.places) {
        Ok(FastParse::Fitting(found)) => request_with(alloc, found),
        Ok(FastParse::NoRequest) => Err(Fault::BadRequest),
        Err(Unread::Unclear) => read_slowly(alloc, text),
        Err(Unread::OutOfMemory) => Err(Fault::OutOfMemory),
    }
}

/// The request that a text is, whatever its members are.
fn read_slowly(alloc: Global, text: &str) -> Result<RequestBody, Fault>
    ensures ok { IfOk result
        (λ r. option_and_then request_of (read text.now) ≡ Some (request_view r)) }
    ensures kind { IfErr result (λ e. e ≢ OutOfMemory → e ≡ BadRequest) }
    ensures refused { IfErr result (λ e. e ≢ OutOfMemory
        → option_and_then request_of (read text.now) ≡ None) }
{
    match Value::from_str(alloc, text) {
        Ok(value) => match value {
            Value::Object(members) => object_from(alloc, members),
            _other => Err(Fault::BadRequest),
        },
        Err(e) if e.is_memory() => Err(Fault::OutOfMemory),
        Err(_) => Err(Fault::BadRequest),
    }
}

fn object_from(alloc: Global, members: Map<String, Value>) -> Result<RequestBody, Fault>
    ensures ok { IfOk result
        (λ r. object_request (members_view members.entries) ≡ Some (request_view r)) }
    ensures kind { IfErr result (λ e. e ≢ OutOfMemory → e ≡ BadRequest) }
    ensures refused { IfErr result (λ e. e ≢ OutOfMemory
        → object_request (members_view members.entries) ≡ None) }
{
    match operation_of(&members) {
        Some(Operation::Query) => query_from(alloc, members),
        Some(Operation::Status) => {
            let token = token_from(members)?;
            Ok(RequestBody::Status { token })
        }
        Some(Operation::CreateIndex) => {
            let IndexNames { token, label, key } = index_names_from(members)?;
            Ok(RequestBody::CreateIndex { token, label, key })
        }
        Some(Operation::DropIndex) => {
            let IndexNames { token, label, key } = index_names_from(members)?;
            Ok(RequestBody::DropIndex { token, label, key })
        }
        Some(Operation::Begin) => {
            let token = token_from(members)?;
            Ok(RequestBody::Begin { token })
        }
        Some(Operation::Commit) => {
            let token = token_from(members)?;
            Ok(RequestBody::Commit { token })
        }
        Some(Operation::Rollback) => {
            let token = token_from(members)?;
            Ok(RequestBody::Rollback { token })
        }
        Some(Operation::Pull) => {
            let HeldPage { token, page } = held_page_from(members)?;
            Ok(RequestBody::Pull { token, page })
        }
        Some(Operation::DropPage) => {
            let HeldPage { token, page } = held_page_from(members)?;
            Ok(RequestBody::DropPage { token, page })
        }
        None => Err(Fault::BadRequest),
    }
}

/// What a request asks for.
#[derive(Clone, Copy, Drop)]
enum Operation {
    Query,
    Status,
    CreateIndex,
    DropIndex,
    Begin,
    Commit,
    Rollback,
    Pull,
    DropPage,
}

/// The operation that the members name.
fn operation_of(members: &Map<String, Value>) -> Option<Operation>
    ensures { option_and_then (λ o. asked_by o (members_view members.now.entries)) result
        ≡ object_request (members_view members.now.entries) }
{
    let op = text_at(members, "op")?;
    if op == "query" {
        Some(Operation::Query)
    } else if op == "status" {
        Some(Operation::Status)
    } else if op == "create_index" {
        Some(Operation::CreateIndex)
    } else if op == "drop_index" {
        Some(Operation::DropIndex)
    } else if op == "begin" {
        Some(Operation::Begin)
    } else if op == "commit" {
        Some(Operation::Commit)
    } else if op == "rollback" {
        Some(Operation::Rollback)
    } else if op == "pull" {
        Some(Operation::Pull)
    } else if op == "drop_page" {
        Some(Operation::DropPage)
    } else {
        None
    }
}

fn query_from(alloc: Global, mut members: Map<String, Value>) -> Result<RequestBody, Fault>
    ensures ok { IfOk result (λ r. with_only query_keys (members_view members.entries)
        (query_of (members_view members.entries)) ≡ Some (request_view r)) }
    ensures kind { IfErr result (λ e. e ≢ OutOfMemory → e ≡ BadRequest) }
    ensures refused { IfErr result (λ e. e ≢ OutOfMemory → with_only query_keys
        (members_view members.entries) (query_of (members_view members.entries)) ≡ None) }
{
    if !has_only(&members, &["op", "token", "text", "params", "page"]) {
        return Err(Fault::BadRequest);
    }
    let Some(token) = take_text(&mut members, "token") else {
        return Err(Fault::BadRequest);
    };
    let Some(text) = take_text(&mut members, "text") else {
        return Err(Fault::BadRequest);
    };
    let parameters = parameters_from(alloc, find(&members, "params"))?;
    let page = page_given(find(&members, "page"))?;
    Ok(RequestBody::Query {
        token,
        text,
        parameters: Parameters::from_map(parameters),
        page,
    })
}

/// How many rows a page is to have, at its key, which may be absent.
fn page_given(given: Option<&Value>) -> Result<Option<u64>, Fault>
    ensures ok { IfOk result
        (λ p. spec_page_given (option_map (λ v. view v.now) given.entry) ≡ Some p) }
    ensures kind { IfErr result (λ e. e ≡ BadRequest) }
    ensures refused { IfErr result
        (λ e. spec_page_given (option_map (λ v. view v.now) given.entry) ≡ None) }
{
    let Some(value) = given else {
        return Ok(None);
    };
    match number_in(value, 1, GREATEST_PAGE) {
        Some(size) => Ok(Some(size)),
        None => Err(Fault::BadRequest),
    }
}

/// A whole number of 64 bits with a sign, if it is from the least to the most.
fn number_in(value: &Value, least: u64, most: u64) -> Option<u64>
    ensures { result ≡ spec_number_in least most (view value.now) }
{
    let number = value.as_i64()?;
    if number < 0 {
        return None;
    }
    let whole = number as u64;
    if whole < least || whole > most {
        None
    } else {
        Some(whole)
    }
}

/// The parameters at their key, which may be absent.
fn parameters_from(
    alloc: Global,
    given: Option<&Value>,
) -> Result<BTreeMap<String, Parameter>, Fault>
    ensures ok { IfOk result (λ m. parameters_given (option_map (λ v. view v.now) given.entry)
        ≡ Some (entries_view m.entries)) }
    ensures kind { IfErr result (λ e. e ≢ OutOfMemory → e ≡ BadRequest) }
    ensures refused { IfErr result (λ e. e ≢ OutOfMemory
        → parameters_given (option_map (λ v. view v.now) given.entry) ≡ None) }
{
    match given {
        None => Ok(BTreeMap::new(alloc)),
        Some(value) => parameters_in(alloc, value),
    }
}

/// The parameters that an object's members give.
fn parameters_in(alloc: Global, given: &Value) -> Result<BTreeMap<String, Parameter>, Fault>
    ensures ok { IfOk result (λ m. option_and_then spec_parameters_in (as_object (view given.now))
        ≡ Some (entries_view m.entries)) }
    ensures kind { IfErr result (λ e. e ≢ OutOfMemory → e ≡ BadRequest) }
    ensures refused { IfErr result (λ e. e ≢ OutOfMemory
        → option_and_then spec_parameters_in (as_object (view given.now)) ≡ None) }
{
    match given {
        Value::Object(members) => entries_from(alloc, members, MAX_DEPTH),
        _ => Err(Fault::BadRequest),
    }
}

/// The token of a request that names nothing else.
fn token_from(mut members: Map<String, Value>) -> Result<String, Fault>
    ensures ok { (request : List ℕ → Request)
        → IfOk result (λ token. with_only token_keys (members_view members.entries)
        (of_token request (members_view members.entries)) ≡ Some (request (string_bytes token))) }
    ensures kind { IfErr result (λ e. e ≡ BadRequest) }
    ensures refused { (request : List ℕ → Request)
        → IfErr result (λ e. with_only token_keys
        (members_view members.entries) (of_token request (members_view members.entries)) ≡ None) }
{
    if !has_only(&members, &["op", "token"]) {
        return Err(Fault::BadRequest);
    }
    let Some(token) = take_text(&mut members, "token") else {
        return Err(Fault::BadRequest);
    };
    Ok(token)
}

/// What a request about an index names.
#[derive(Drop)]
struct IndexNames {
    token: String,
    label: String,
    key: String,
}

fn index_names_from(mut members: Map<String, Value>) -> Result<IndexNames, Fault>
    ensures ok { (request : List ℕ → List ℕ → List ℕ → Request)
        → IfOk result (λ n. with_only index_keys
        (members_view members.entries) (index_of request (members_view members.entries))
        ≡ Some (request (string_bytes n.token) (string_bytes n.label) (string_bytes n.key))) }
    ensures kind { IfErr result (λ e. e ≡ BadRequest) }
    ensures refused { (request : List ℕ → List ℕ → List ℕ → Request)
        → IfErr result (λ e. with_only index_keys
        (members_view members.entries) (index_of request (members_view members.entries)) ≡ None) }
{
    if !has_only(&members, &["op", "token", "label", "key"]) {
        return Err(Fault::BadRequest);
    }
    let Some(token) = take_text(&mut members, "token") else {
        return Err(Fault::BadRequest);
    };
    let Some(label) = take_name(&mut members, "label") else {
        return Err(Fault::BadRequest);
    };
    let Some(key) = take_name(&mut members, "key") else {
        return Err(Fault::BadRequest);
    };
    Ok(IndexNames { token, label, key })
}

/// What a request about held rows names.
#[derive(Drop)]
struct HeldPage {
    token: String,
    page: u64,
}

fn held_page_from(mut members: Map<String, Value>) -> Result<HeldPage, Fault>
    ensures ok { (request : List ℕ → ℕ → Request)
        → IfOk result (λ p. with_only page_keys
        (members_view members.entries) (of_page request (members_view members.entries))
        ≡ Some (request (string_bytes p.token) p.page)) }
    ensures kind { IfErr result (λ e. e ≡ BadRequest) }
    ensures refused { (request : List ℕ → ℕ → Request)
        → IfErr result (λ e. with_only page_keys
        (members_view members.entries) (of_page request (members_view members.entries)) ≡ None) }
{
    if !has_only(&members, &["op", "token", "page"]) {
        return Err(Fault::BadRequest);
    }
    let Some(token) = take_text(&mut members, "token") else {
        return Err(Fault::BadRequest);
    };
    let Some(value) = find(&members, "page") else {
        return Err(Fault::BadRequest);
    };
    match number_in(value, 0, GREATEST_NUMBER) {
        Some(page) => Ok(HeldPage { token, page }),
        None => Err(Fault::BadRequest),
    }
}

fn text_at<'a>(members: &'a Map<String, Value>, name: &str) -> Option<&'a str>
    ensures { option_map (λ t. t.now) result
        ≡ spec_text_at name.now (members_view members.now.entries) }
{
    find(members, name)?.as_str()
}

fn find<'a>(members: &'a Map<String, Value>, name: &str) -> Option<&'a Value>
    ensures { option_map (λ v. view v.now) result
        ≡ get_member name.now (members_view members.now.entries) }
{
    members.get(name)
}

/// The text at a key, if it has at least one byte.
fn take_name(members: &mut Map<String, Value>, name: &str) -> Option<String>
    ensures text { option_map string_bytes result
        ≡ name_at name.now (members_view members.old.entries) }
    ensures others { (k : List ℕ) → k ≢ name.now
        → get_member k (members_view members.new.entries)
        ≡ get_member k (members_view members.old.entries) }
{
    let text = take_text(members, name)?;
    if text.is_empty() { None } else { Some(text) }
}

fn take_text(members: &mut Map<String, Value>, name: &str) -> Option<String>
    ensures text { option_map string_bytes result
        ≡ spec_text_at name.now (members_view members.old.entries) }
    ensures others { (k : List ℕ) → k ≢ name.now
        → get_member k (members_view members.new.entries)
        ≡ get_member k (members_view members.old.entries) }
{
    match take(members, name)? {
        Value::String(text) => Some(text),
        _ => None,
    }
}

fn take(members: &mut Map<String, Value>, name: &str) -> Option<Value>
    ensures value { option_map view result
        ≡ get_member name.now (members_view members.old.entries) }
    ensures others { (k : List ℕ) → k ≢ name.now
        → get_member k (members_view members.new.entries)
        ≡ get_member k (members_view members.old.entries) }
{
    members.remove(name)
}

fn has_only(members: &Map<String, Value>, names: &[&str]) -> bool
    ensures { result
        ≡ spec_has_only (map (λ n. n.now) names.now) (members_view members.now.entries) }
{
    for (key, _) in members.iter() {
        if !is_one_of(names, key.as_str()) {
            return false;
        }
    }
    true
}

fn is_one_of(names: &[&str], key: &str) -> bool
    ensures { result ≡ spec_is_one_of (map (λ n. n.now) names.now) key.now }
{
    for name in names {
        if key == *name {
            return true;
        }
    }
    false
}
