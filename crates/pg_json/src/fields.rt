//! What stands at a request's keys, read token by token.
ghost use Rattle.std.specs.Prelude.{◌≡◌, ◌≢◌, length, false, None, Some, IfOk, IfErr, IfSome, IfNone, codes, option_map};
ghost use Rattle.std.specs.Str.{bytes_eq};
ghost use Rattle.json.specs.Json.{members, value};
ghost use Rattle.serde_json.specs.Data.{string, put};
ghost use Rattle.serde_json.specs.Read.{read, of_members, converted};
ghost use Rattle.pg_json.specs.Bodies.{request_view};
ghost use Rattle.pg_json.specs.Fields.{members_with, object_giving, parameters_of, asked_alone, asked_by_page, asked_for_query, asked_with, later_keys, text_key_name, text_keys, FieldsAreGiven, IsGlance, IsGlanceOfMembers};
ghost use Rattle.pg_json.specs.Replies.{natural};
ghost use Rattle.pg_json.specs.Requests.{is_one_of};
ghost use Rattle.pg_value_core.specs.View.{entries_view};
ghost use Rattle.pg_meaning.specs.declared.fault.Fault.TheVariants.{BadRequest, OutOfMemory};

use crate::page::{page_size, read_page};
use crate::parameters::read_parameters;
use crate::request::RequestBody;
use crate::unread::Unread;
use json::{Reader, Scratch, Token};
use pg_meaning::Fault;
use pg_value_core::{Parameters, Value};
use std::alloc::Global;
use std::collections::BTreeMap;

/// The last text at each key, and the last page and parameters.
#[derive(Drop)]
pub(crate) struct Fields<'a> {
    pub(crate) op: Option<&'a str>,
    pub(crate) page: Option<u64>,
    pub(crate) parameters: Option<BTreeMap<String, Value>>,
    pub(crate) text: Option<&'a str>,
    pub(crate) token: Option<&'a str>,
}

/// A key at which a text stands.
#[derive(Clone, Copy)]
enum TextKey {
    Op,
    Text,
    Token,
}

/// What is seen of a body at a glance.
#[derive(Drop)]
pub(crate) enum FastParse<'a> {
    /// One object that has at the keys of a query what they may have, and no other key.
    Fitting(Fields<'a>),
    NoRequest,
}

/// Tells what a text is, unless a value at a request's key needs a second look.
pub(crate) fn look<'a>(
    alloc: Global,
    text: &'a str,
    scratch: &'a mut Scratch,
) -> Result<FastParse<'a>, Unread>
    ensures { IfOk result (λ g. IsGlance (read text.now) g) }
{
    let Ok(mut reader) = Reader::new(text, scratch) else {
        return Err(Unread::OutOfMemory);
    };
    let Some(Token::BeginObject) = reader.next() else {
        return Err(Unread::Unclear);
    };
    let mut found = Fields {
        op: None,
        page: None,
        parameters: None,
        text: None,
        token: None,
    };
    if !take_fields(alloc, &mut reader, &mut found)? {
        return Ok(FastParse::NoRequest);
    }
    match reader.next() {
        None => Ok(FastParse::Fitting(found)),
        Some(_) => Ok(FastParse::NoRequest),
    }
}

/// Takes what stands at the keys, up to the closing brace; whether it fits.
fn take_fields<'a>(
    alloc: Global,
    reader: &mut Reader<'a>,
    found: &mut Fields<'a>,
) -> Result<bool, Unread>
    ensures members { IfOk result
        (IsGlanceOfMembers (converted (λ ms. of_members ms (members_with found.old))
        (members (value 126) (length reader.old) reader.old)) reader.new found.new) }
    ensures given { FieldsAreGiven found.old → FieldsAreGiven found.new }
{
    'members: loop {
        let key = match reader.next_key() {
            Ok(Some(key)) => key,
            Ok(None) => return Ok(true),
            Err(_) => return Ok(false),
        };
        if let Some(text_key) = text_key(key) {
            match reader.next() {
                Some(Token::String(text)) => put_text(found, text_key, text),
                Some(Token::Bad) => return Ok(false),
                _ => return Err(Unread::Unclear),
            }
            continue 'members;
        }
        if is_same(key, "params") {
            put_parameters(found, read_parameters(alloc, reader)?);
            continue 'members;
        }
        if is_same(key, "page") {
            put_page(found, read_page(reader)?);
            continue 'members;
        }
        if is_later_key(key) {
            return Err(Unread::Unclear);
        }
        return Ok(false);
    }
}

fn is_later_key(key: &str) -> bool
    ensures { result ≡ is_one_of later_keys key.now }
{
    is_same(key, "label") || is_same(key, "key")
}

/// Which of the keys this is at which a text stands.
fn text_key(key: &str) -> Option<TextKey>
    ensures some { IfSome result (λ k. key.now ≡ text_key_name k) }
    ensures none { IfNone result (is_one_of text_keys key.now ≡ false) }
{
    if is_same(key, "op") {
        return Some(TextKey::Op);
    }
    if is_same(key, "text") {
        return Some(TextKey::Text);
    }
    if is_same(key, "token") {
        return Some(TextKey::Token);
    }
    None
}

/// Whether the texts are the same. Texts of two lengths are told apart without a look at their bytes.
fn is_same(text: &str, other: &str) -> bool
    ensures { result ≡ bytes_eq text.now other.now }
{
    text.len() == other.len() && text == other
}

/// Puts the text at the key.
fn put_text<'a>(found: &mut Fields<'a>, key: TextKey, text: &'a str)
    ensures texts { members_with found.new
        ≡ put (text_key_name key) (string text.now) (members_with found.old) }
    ensures parameters { parameters_of found.new ≡ parameters_of found.old }
    ensures page { found.new.page ≡ found.old.page }
{
    match key {
        TextKey::Op => found.op = Some(text),
        TextKey::Text => found.text = Some(text),
        TextKey::Token => found.token = Some(text),
    }
}

fn put_parameters(found: &mut Fields<'_>, parameters: BTreeMap<String, Value>)
    ensures members { members_with found.new
        ≡ put (codes "params")
        (object_giving (entries_view parameters.entries)) (members_with found.old) }
    ensures parameters { parameters_of found.new ≡ Some (entries_view parameters.entries) }
    ensures page { found.new.page ≡ found.old.page }
{
    found.parameters = Some(parameters);
}

fn put_page(found: &mut Fields<'_>, page: u64)
    ensures members { members_with found.new
        ≡ put (codes "page") (natural page) (members_with found.old) }
    ensures parameters { parameters_of found.new ≡ parameters_of found.old }
    ensures page { found.new.page ≡ Some page }
{
    found.page = Some(page);
}

/// The request that has these fields.
pub(crate) fn request_with(alloc: Global, found: Fields<'_>) -> Result<RequestBody, Fault>
    ensures ok { IfOk result (λ r. asked_with found.entry ≡ Some (request_view r)) }
    ensures kind { IfErr result (λ e. e ≢ OutOfMemory → e ≡ BadRequest) }
    ensures refused { IfErr result (λ e. e ≢ OutOfMemory → asked_with found.entry ≡ None) }
{
    let Fields {
        op: Some(op),
        page,
        parameters,
        text,
        token: Some(token),
    } = found
    else {
        return Err(Fault::BadRequest);
    };
    match text {
        Some(text) if op == "query" => query_with(alloc, token, text, parameters, page),
        None if parameters.is_none() => request_by_page(alloc, op, token, page),
        _ => Err(Fault::BadRequest),
    }
}

fn query_with(
    alloc: Global,
    token: &str,
    text: &str,
    parameters: Option<BTreeMap<String, Value>>,
    page: Option<u64>,
) -> Result<RequestBody, Fault>
    ensures ok { IfOk result (λ r. asked_for_query token.now text.now
        (option_map (λ m. entries_view m.entries) parameters) page ≡ Some (request_view r)) }
    ensures kind { IfErr result (λ e. e ≢ OutOfMemory → e ≡ BadRequest) }
    ensures refused { IfErr result (λ e. e ≢ OutOfMemory → asked_for_query token.now text.now
        (option_map (λ m. entries_view m.entries) parameters) page ≡ None) }
{
    let page = page_size(page)?;
    Ok(RequestBody::Query {
        token: String::from_str(alloc, token)?,
        text: String::from_str(alloc, text)?,
        parameters: Parameters::from_map(parameters.unwrap_or(BTreeMap::new(alloc))),
        page,
    })
}

/// The request of this name that shows a token and at most the number of held rows.
fn request_by_page(
    alloc: Global,
    op: &str,
    token: &str,
    page: Option<u64>,
) -> Result<RequestBody, Fault>
    ensures ok { IfOk result (λ r. asked_by_page op.now page token.now ≡ Some (request_view r)) }
    ensures kind { IfErr result (λ e. e ≢ OutOfMemory → e ≡ BadRequest) }
    ensures refused { IfErr result (λ e. e ≢ OutOfMemory
        → asked_by_page op.now page token.now ≡ None) }
{
    let Some(page) = page else {
        return request_alone(alloc, op, token);
    };
    if op == "pull" {
        Ok(RequestBody::Pull {
            token: String::from_str(alloc, token)?,
            page,
        })
    } else if op == "drop_page" {
        Ok(RequestBody::DropPage {
            token: String::from_str(alloc, token)?,
            page,
        })
    } else {
        Err(Fault::BadRequest)
    }
}

/// The request of this name that shows a token alone.
fn request_alone(alloc: Global, op: &str, token: &str) -> Result<RequestBody, Fault>
    ensures ok { IfOk result (λ r. asked_alone op.now token.now ≡ Some (request_view r)) }
    ensures kind { IfErr result (λ e. e ≢ OutOfMemory → e ≡ BadRequest) }
    ensures refused { IfErr result (λ e. e ≢ OutOfMemory → asked_alone op.now token.now ≡ None) }
{
    if op == "status" {
        Ok(RequestBody::Status {
            token: String::from_str(alloc, token)?,
        })
    } else if op == "begin" {
        Ok(RequestBody::Begin {
            token: String::from_str(alloc, token)?,
        })
    } else if op == "commit" {
        Ok(RequestBody::Commit {
            token: String::from_str(alloc, token)?,
        })
    } else if op == "rollback" {
        Ok(RequestBody::Rollback {
            token: String::from_str(alloc, token)?,
        })
    } else {
        Err(Fault::BadRequest)
    }
}
