//! The parameters of a query, read token by token.
ghost use Rattle.std.specs.Prelude.{◌≡◌, ◌<◌, ◌≤◌, ◌+◌, [], ◌∷◌, ◌++◌, length, string_bytes, Some, IfOk, OnOk};
ghost use Rattle.json.specs.Json.{value, members};
ghost use Rattle.json.specs.Token as tokens;
ghost use Rattle.json.specs.Reads.{token_of};
ghost use Rattle.serde_json.specs.Data.{no_members};
ghost use Rattle.serde_json.specs.Read.{of_json, of_members, converted};
ghost use Rattle.pg_meaning.specs.Entries.{with_entry};
ghost use Rattle.pg_meaning.specs.Measure.{greatest_depth};
ghost use Rattle.pg_json.specs.Added.{BeginsWith, AddsItem, AddsEntry};
ghost use Rattle.pg_json.specs.Fields.{object_giving};
ghost use Rattle.pg_json.specs.Given.{members_giving, EntriesAreGiven};
ghost use Rattle.pg_value_core.specs.View.{view, entries_view};

use crate::number::whole_number;
use crate::unread::Unread;
use crate::values::put_entry;
use json::{Reader, Token};
use pg_value_core::{Value, push_item};
use std::alloc::Global;
use std::collections::BTreeMap;

/// No value is deeper.
pub(crate) const MAX_DEPTH: usize = 64;

/// The object that comes next, if all its values may be those of parameters.
pub(crate) fn read_parameters(
    alloc: Global,
    reader: &mut Reader<'_>,
) -> Result<BTreeMap<String, Value>, Unread>
    ensures ok { IfOk result (λ m. converted of_json (value 126 reader.old)
        ≡ Some (object_giving (entries_view m.entries), reader.new)) }
    ensures given { IfOk result (λ m. EntriesAreGiven greatest_depth (entries_view m.entries)) }
    ensures shorter { OnOk result (length reader.new < length reader.old) }
{
    let Some(Token::BeginObject) = reader.next() else {
        return Err(Unread::Unclear);
    };
    let members = read_members(alloc, reader, MAX_DEPTH)?;
    Ok(members)
}

/// The entries that come next, up to the brace that closes them.
#[cycle(read)]
fn read_members(
    alloc: Global,
    reader: &mut Reader<'_>,
    room: usize,
) -> Result<BTreeMap<String, Value>, Unread>
    ensures ok { IfOk result (λ m. converted (λ ms. of_members ms no_members)
        (members (value (room + 61)) (length reader.old) reader.old)
        ≡ Some (members_giving (entries_view m.entries), reader.new)) }
    ensures given { IfOk result (λ m. EntriesAreGiven room (entries_view m.entries)) }
    ensures shorter { OnOk result (length reader.new < length reader.old) }
{
    let mut found = BTreeMap::new(alloc);
    'members: loop {
        let name = match reader.next_key() {
            Ok(Some(name)) => name,
            Ok(None) => return Ok(found),
            Err(_) => return Err(Unread::Unclear),
        };
        let key = String::from_str(alloc, name)?;
        let Some(token) = reader.next() else {
            return Err(Unread::Unclear);
        };
        add_entry(alloc, reader, token, room, &mut found, key)?;
    }
}

/// Puts the value that begins with this token at the key.
#[cycle(read)]
#[inline(always)]
fn add_entry(
    alloc: Global,
    reader: &mut Reader<'_>,
    token: Token<'_>,
    room: usize,
    entries: &mut BTreeMap<String, Value>,
    key: String,
) -> Result<(), Unread>
    ensures ok { OnOk result (AddsEntry room (token_of token.entry ∷ reader.old) reader.new
        (string_bytes key) (entries_view entries.old.entries) (entries_view entries.new.entries)) }
    ensures shorter { OnOk result (length reader.new ≤ length reader.old) }
{
    if room == 0 {
        return Err(Unread::Unclear);
    }
    match token {
        Token::Number(text) => match whole_number(text) {
            Some(number) => put_value(entries, key, Value::Int(number)),
            None => Err(Unread::Unclear),
        },
        Token::String(text) => put_value(entries, key, Value::text(alloc, text)?),
        token => put_value(entries, key, other_value(alloc, reader, token, room)?),
    }
}

/// Puts a value at the key.
#[inline(always)]
fn put_value(entries: &mut BTreeMap<String, Value>, key: String, value: Value) -> Result<(), Unread>
    ensures { OnOk result (entries_view entries.new.entries
        ≡ with_entry (string_bytes key) (view value) (entries_view entries.old.entries)) }
{
    put_entry(entries, key, value)?;
    Ok(())
}

/// The value that begins with this token and is no number and no text, if it may be a parameter's.
#[cycle(read)]
#[inline(always)]
fn other_value(
    alloc: Global,
    reader: &mut Reader<'_>,
    token: Token<'_>,
    room: usize,
) -> Result<Value, Unread>
    ensures ok { IfOk result
        (λ v. BeginsWith room (token_of token.entry ∷ reader.old) (view v) reader.new) }
    ensures shorter { OnOk result (length reader.new ≤ length reader.old) }
{
    if room == 0 {
        return Err(Unread::Unclear);
    }
    match token {
        Token::Null => Ok(Value::Null),
        Token::Bool(b) => Ok(Value::Bool(b)),
        Token::BeginArray => read_list(alloc, reader, room - 1),
        Token::BeginObject => read_map(alloc, reader, room - 1),
        _ => Err(Unread::Unclear),
    }
}

/// The map whose members come next, if their values may be so deep.
#[cycle(read)]
#[inline(never)]
fn read_map(alloc: Global, reader: &mut Reader<'_>, room: usize) -> Result<Value, Unread>
    ensures ok { IfOk result
        (λ v. BeginsWith (room + 1) (tokens.begin_object ∷ reader.old) (view v) reader.new) }
    ensures shorter { OnOk result (length reader.new ≤ length reader.old) }
{
    let entries = read_members(alloc, reader, room)?;
    Ok(Value::map(alloc, entries)?)
}

/// The list whose items come next, if they may be so deep.
#[cycle(read)]
#[inline(never)]
fn read_list(alloc: Global, reader: &mut Reader<'_>, room: usize) -> Result<Value, Unread>
    ensures ok { IfOk result
        (λ v. BeginsWith (room + 1) (tokens.begin_array ∷ reader.old) (view v) reader.new) }
    ensures shorter { OnOk result (length reader.new ≤ length reader.old) }
{
    let mut found = Vec::new(alloc);
    'items: loop {
        match reader.next() {
            Some(Token::EndArray) => return Ok(Value::list(found)?),
            Some(token) => add_item(alloc, reader, token, room, &mut found)?,
            None => return Err(Unread::Unclear),
        }
    }
}

/// Puts the value that begins with this token behind the items. It mostly is a number or a text.
#[cycle(read)]
#[inline(always)]
fn add_item(
    alloc: Global,
    reader: &mut Reader<'_>,
    token: Token<'_>,
    room: usize,
    items: &mut Vec<Value>,
) -> Result<(), Unread>
    ensures ok { OnOk result (AddsItem room (token_of token.entry ∷ reader.old) reader.new
        items.old.items items.new.items) }
    ensures shorter { OnOk result (length reader.new ≤ length reader.old) }
{
    if room == 0 {
        return Err(Unread::Unclear);
    }
    match token {
        Token::Number(text) => match whole_number(text) {
            Some(number) => put_item(items, Value::Int(number)),
            None => Err(Unread::Unclear),
        },
        Token::String(text) => put_item(items, Value::text(alloc, text)?),
        token => put_item(items, other_value(alloc, reader, token, room)?),
    }
}

/// Puts a value behind the items.
#[inline(always)]
fn put_item(items: &mut Vec<Value>, value: Value) -> Result<(), Unread>
    ensures { OnOk result (items.new.items ≡ items.old.items ++ value ∷ []) }
{
    push_item(items, value)?;
    Ok(())
}
