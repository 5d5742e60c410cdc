//! What stands around the rows of a reply.
ghost use Rattle.std.specs.Prelude.{None, take, drop, ◌≡◌, ◌≢◌, ◌+◌, ◌<◌, ◌≤◌, ◌++◌, IfOk, IfErr, decimal, length};
ghost use Rattle.pg_json.specs.Joined.{steps_text};
ghost use Rattle.pg_json.specs.Pages.{number_or_null};
ghost use Rattle.pg_json.specs.Replies.{max_reply};
ghost use Rattle.pg_json.specs.Telling.{columns_open};
ghost use Rattle.pg_meaning.specs.declared.fault.Fault.TheVariants.{OutOfMemory, ReplyTooLong};

use crate::bytes::MAX_REPLY;
use itoa::Buffer;
use pg_meaning::Fault;
use std::alloc::{AllocError, Global};

/// What stands before the first column.
pub(crate) fn head(alloc: Global) -> Result<Vec<u8>, AllocError>
    ensures { IfOk result (λ v. v.items ≡ columns_open) }
{
    let mut text = Vec::with_capacity(alloc, 128)?;
    text.extend_from_slice("{\"code\":0,\"columns\":[".as_bytes())?;
    Ok(text)
}

/// The text with a page's number behind it, or `null`.
pub(crate) fn with_page(text: Vec<u8>, page: Option<u64>) -> Result<Vec<u8>, AllocError>
    ensures text { IfOk result (λ v. v.items ≡ text.items ++ number_or_null page) }
    ensures few { IfOk result (λ v. length v.items ≤ length text.items + 20) }
{
    match page {
        Some(number) => with_number(text, number),
        None => with_null(text),
    }
}

fn with_null(text: Vec<u8>) -> Result<Vec<u8>, AllocError>
    ensures { IfOk result (λ v. v.items ≡ text.items ++ number_or_null None) }
{
    let mut text = text;
    text.extend_from_slice("null".as_bytes())?;
    Ok(text)
}

/// The text with the steps behind it, which ends the reply. It may be no longer than 16 MiB.
pub(crate) fn with_steps(text: Vec<u8>, steps: u64) -> Result<Vec<u8>, Fault>
    ensures ok { IfOk result (λ v. v.items ≡ text.items ++ steps_text steps) }
    ensures within { IfOk result (λ v. length v.items ≤ max_reply) }
    ensures kind { IfErr result (λ e. e ≢ OutOfMemory → e ≡ ReplyTooLong) }
    ensures long { IfErr result (λ e. e ≢ OutOfMemory
        → max_reply < length (text.items ++ steps_text steps)) }
{
    within_limit(steps_behind(text, steps)?)
}

/// The text, unless it is longer than 16 MiB.
pub(crate) fn within_limit(text: Vec<u8>) -> Result<Vec<u8>, Fault>
    ensures ok { IfOk result (λ v. v.items ≡ text.items) }
    ensures within { IfOk result (λ v. length v.items ≤ max_reply) }
    ensures err { IfErr result (λ e. e ≡ ReplyTooLong) }
    ensures long { IfErr result (λ e. max_reply < length text.items) }
{
    if text.len() > MAX_REPLY {
        return Err(Fault::ReplyTooLong);
    }
    Ok(text)
}

fn steps_behind(text: Vec<u8>, steps: u64) -> Result<Vec<u8>, AllocError>
    ensures { IfOk result (λ v. v.items ≡ text.items ++ steps_text steps) }
{
    let mut text = text;
    text.extend_from_slice(",\"steps\":".as_bytes())?;
    let mut text = with_number(text, steps)?;
    text.push(b'}')?;
    Ok(text)
}

fn with_number(text: Vec<u8>, number: u64) -> Result<Vec<u8>, AllocError>
    ensures text { IfOk result (λ v. v.items ≡ text.items ++ decimal number) }
    ensures few { IfOk result (λ v. length v.items ≤ length text.items + 20) }
{
    let mut text = text;
    let mut buffer = Buffer::new();
    text.extend_from_slice(buffer.format(number).as_bytes())?;
    Ok(text)
}

/// The bytes from one place up to another.
pub(crate) fn part(text: &[u8], start: usize, end: usize) -> &[u8]
    requires order { start ≤ end }
    requires within { end ≤ length text.now }
    ensures { result.now ≡ drop start (take end text.now) }
{
    &text[start..end]
}
