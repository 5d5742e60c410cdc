//! The reply that tells what a tenant has and may have.
ghost use Rattle.std.specs.Prelude.{◌≡◌, ◌≢◌, ◌<◌, ◌≤◌, ◌++◌, ◌∷◌, [], IfOk, IfErr, OnOk, length, codes, decimal};
ghost use Rattle.json.specs.Tree.{json_tokens};
ghost use Rattle.json.specs.Token.{key as key_token, number as number_token};
ghost use Rattle.serde_json.specs.Data.{array};
ghost use Rattle.serde_json.specs.Written.{outline};
ghost use Rattle.pg_json.specs.Replies.{index_data, index_items, max_reply, tenant_data, tenant_text};
ghost use Rattle.pg_meaning.specs.declared.fault.Fault.TheVariants.{OutOfMemory, ReplyTooLong};

use crate::bytes::{MAX_REPLY, ReplyBytes};
use crate::value::write_natural;
use json::Writer;
use pg_meaning::Fault;
use std::alloc::{AllocError, Global};

/// What a tenant has and may have.
#[derive(Drop)]
pub struct TenantStatus {
    /// Nodes and relationships together.
    pub elements: u64,
    /// Labels and keys, in the order of their bytes.
    pub indexes: Vec<(String, String)>,
    pub max_elements: u64,
    pub max_steps: u64,
    pub next_node: u64,
    pub next_rel: u64,
}

/// The reply's text, which no reply may have longer than 16 MiB.
pub fn write_status(alloc: Global, status: &TenantStatus) -> Result<ReplyBytes, Fault>
    ensures ok { IfOk result (λ bytes. bytes ≡ tenant_text status.now) }
    ensures within { IfOk result (λ bytes. length bytes ≤ max_reply) }
    ensures kind { IfErr result (λ e. e ≢ OutOfMemory → e ≡ ReplyTooLong) }
    ensures long { IfErr result (λ e. e ≢ OutOfMemory
        → max_reply < length (tenant_text status.now)) }
{
    let text = text_of(alloc, status)?;
    if text.len() > MAX_REPLY {
        return Err(Fault::ReplyTooLong);
    }
    Ok(ReplyBytes::made(text))
}

fn text_of(alloc: Global, status: &TenantStatus) -> Result<Vec<u8>, AllocError>
    ensures { IfOk result (λ v. v.items ≡ tenant_text status.now) }
{
    let mut to = Writer::new(Vec::with_capacity(alloc, 128)?);
    write_body(status, &mut to)?;
    Ok(to.into_inner())
}

fn write_body(status: &TenantStatus, to: &mut Writer) -> Result<(), AllocError>
    ensures ok { OnOk result
        (to.new.tokens ≡ to.old.tokens ++ json_tokens (outline (tenant_data status.now))) }
    ensures before { to.new.before ≡ to.old.before }
{
    to.begin_object()?;
    write_natural("code", 0, to)?;
    write_natural("elements", status.elements, to)?;
    write_indexes(&status.indexes, to)?;
    write_pair(
        "max_elements",
        status.max_elements,
        "max_steps",
        status.max_steps,
        to,
    )?;
    write_pair(
        "next_node",
        status.next_node,
        "next_rel",
        status.next_rel,
        to,
    )?;
    to.end_object()
}

/// Two members in a row.
fn write_pair(
    first: &str,
    one: u64,
    second: &str,
    other: u64,
    to: &mut Writer,
) -> Result<(), AllocError>
    ensures ok { OnOk result (to.new.tokens ≡ to.old.tokens ++ key_token first.now
        ∷ number_token (decimal one) ∷ key_token second.now ∷ number_token (decimal other) ∷ []) }
    ensures before { to.new.before ≡ to.old.before }
{
    write_natural(first, one, to)?;
    write_natural(second, other, to)
}

fn write_indexes(indexes: &[(String, String)], to: &mut Writer) -> Result<(), AllocError>
    ensures ok { OnOk result (to.new.tokens ≡ to.old.tokens
        ++ key_token (codes "indexes") ∷ json_tokens (outline (array (index_items indexes.now)))) }
    ensures before { to.new.before ≡ to.old.before }
{
    to.key("indexes")?;
    to.begin_array()?;
    for index in indexes {
        write_index(&index.0, &index.1, to)?;
    }
    to.end_array()
}

fn write_index(label: &str, key: &str, to: &mut Writer) -> Result<(), AllocError>
    ensures ok { OnOk result
        (to.new.tokens ≡ to.old.tokens ++ json_tokens (outline (index_data label.now key.now))) }
    ensures before { to.new.before ≡ to.old.before }
{
    to.begin_array()?;
    to.string(label)?;
    to.string(key)?;
    to.end_array()
}
