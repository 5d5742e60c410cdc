//! A value's tokens.
ghost use Rattle.std.specs.Prelude.{◌≡◌, ◌++◌, ◌∷◌, [], OnOk, codes, decimal};
ghost use Rattle.json.specs.Tree.{json_tokens};
ghost use Rattle.json.specs.Token.{key as key_token, number as number_token, begin_object};
ghost use Rattle.serde_json.specs.Data.{array, object};
ghost use Rattle.serde_json.specs.Written.{outline};
ghost use Rattle.pg_json.specs.Replies.{data_of, outs, named_outs, text_items};
ghost use Rattle.pg_json.specs.Elements.{node_begun, rel_begun, rel_ended};
ghost use Rattle.pg_value_core.specs.declared.out.Out.TheVariants.{Int};

use json::Writer;
use pg_value_core::{NodeId, Out, RelId};
use std::alloc::AllocError;

#[cycle(write)]
pub(crate) fn write(value: &Out, to: &mut Writer) -> Result<(), AllocError>
    ensures ok { OnOk result
        (to.new.tokens ≡ to.old.tokens ++ json_tokens (outline (data_of value.now))) }
    ensures before { to.new.before ≡ to.old.before }
{
    match value {
        Out::Null => to.null(),
        Out::Bool(b) => to.boolean(*b),
        Out::Int(i) => write_integer(i, to),
        Out::Text(text) => to.string(text),
        Out::List(items) => write_items(items, to),
        Out::Map(members) => write_members(members, to),
        Out::Node {
            id,
            labels,
            properties,
        } => {
            begin_node(*id, labels, to)?;
            write_members(properties, to)?;
            to.end_object()
        }
        Out::Rel {
            id,
            kind,
            start,
            end,
            properties,
        } => {
            begin_rel(*id, *end, to)?;
            write_members(properties, to)?;
            end_rel(*start, kind, to)
        }
        Out::Path(elements) => {
            begin_path(to)?;
            write_items(elements, to)?;
            to.end_object()
        }
    }
}

/// An integer, of which no value is made.
#[inline(always)]
#[tactic(auto, using(crate::proofs::Elements::integer_tokens))]
pub(crate) fn write_integer(number: &i64, to: &mut Writer) -> Result<(), AllocError>
    ensures ok { OnOk result
        (to.new.tokens ≡ to.old.tokens ++ json_tokens (outline (data_of (Int number.now)))) }
    ensures before { to.new.before ≡ to.old.before }
{
    to.i64(*number)
}

#[cycle(write)]
pub(crate) fn write_items(items: &[Out], to: &mut Writer) -> Result<(), AllocError>
    ensures ok { OnOk result
        (to.new.tokens ≡ to.old.tokens ++ json_tokens (outline (array (outs items.now)))) }
    ensures before { to.new.before ≡ to.old.before }
{
    to.begin_array()?;
    for item in items {
        write(item, to)?;
    }
    to.end_array()
}

#[cycle(write)]
fn write_members(members: &[(String, Out)], to: &mut Writer) -> Result<(), AllocError>
    ensures ok { OnOk result (to.new.tokens
        ≡ to.old.tokens ++ json_tokens (outline (object (named_outs members.now)))) }
    ensures before { to.new.before ≡ to.old.before }
{
    to.begin_object()?;
    for (key, member) in members {
        to.key(key)?;
        write(member, to)?;
    }
    to.end_object()
}

/// What stands before a node's properties.
fn begin_node(id: NodeId, labels: &[String], to: &mut Writer) -> Result<(), AllocError>
    ensures ok { OnOk result
        (to.new.tokens ≡ to.old.tokens ++ node_begun id.0 (text_items labels.now)) }
    ensures before { to.new.before ≡ to.old.before }
{
    to.begin_object()?;
    write_natural("$node", id.0, to)?;
    write_labels(labels, to)?;
    to.key("properties")
}

/// What stands before a relationship's properties.
fn begin_rel(id: RelId, end: NodeId, to: &mut Writer) -> Result<(), AllocError>
    ensures ok { OnOk result (to.new.tokens ≡ to.old.tokens ++ rel_begun id.0 end.0) }
    ensures before { to.new.before ≡ to.old.before }
{
    to.begin_object()?;
    write_natural("$rel", id.0, to)?;
    write_natural("end", end.0, to)?;
    to.key("properties")
}

/// What stands behind a relationship's properties.
fn end_rel(start: NodeId, kind: &str, to: &mut Writer) -> Result<(), AllocError>
    ensures ok { OnOk result (to.new.tokens ≡ to.old.tokens ++ rel_ended start.0 kind.now) }
    ensures before { to.new.before ≡ to.old.before }
{
    write_natural("start", start.0, to)?;
    to.key("type")?;
    to.string(kind)?;
    to.end_object()
}

fn begin_path(to: &mut Writer) -> Result<(), AllocError>
    ensures ok { OnOk result
        (to.new.tokens ≡ to.old.tokens ++ begin_object ∷ key_token (codes "$path") ∷ []) }
    ensures before { to.new.before ≡ to.old.before }
{
    to.begin_object()?;
    to.key("$path")
}

fn write_labels(labels: &[String], to: &mut Writer) -> Result<(), AllocError>
    ensures ok { OnOk result (to.new.tokens ≡ to.old.tokens
        ++ key_token (codes "labels") ∷ json_tokens (outline (array (text_items labels.now)))) }
    ensures before { to.new.before ≡ to.old.before }
{
    to.key("labels")?;
    write_texts(labels, to)
}

fn write_texts(texts: &[String], to: &mut Writer) -> Result<(), AllocError>
    ensures ok { OnOk result
        (to.new.tokens ≡ to.old.tokens ++ json_tokens (outline (array (text_items texts.now)))) }
    ensures before { to.new.before ≡ to.old.before }
{
    to.begin_array()?;
    for text in texts {
        to.string(text)?;
    }
    to.end_array()
}

pub(crate) fn write_natural(name: &str, n: u64, to: &mut Writer) -> Result<(), AllocError>
    ensures ok { OnOk result
        (to.new.tokens ≡ to.old.tokens ++ key_token name.now ∷ number_token (decimal n) ∷ []) }
    ensures before { to.new.before ≡ to.old.before }
{
    to.key(name)?;
    to.u64(n)
}
