//! A request that is made here: to roll back.
ghost use Rattle.std.specs.Prelude.{◌≡◌, true, Some, IfSome};
ghost use Rattle.pg_json.specs.Bodies.{request_view};
ghost use Rattle.pg_json.specs.Requests.{meaning, rollback};

use crate::read::read_request;
use crate::request::RequestBody;
use crate::scratch::RequestScratch;
use json::Writer;
use std::alloc::{AllocError, Global};

/// The body of a request to roll back the transaction of a token, if there is memory for it.
pub fn rollback_body(alloc: Global, token: &str) -> Option<Vec<u8>>
    ensures { IfSome result (λ body. meaning body.items ≡ Some (rollback token.now)) }
{
    match body_of(alloc, token) {
        Ok(body) => if_rollback(alloc, body, token),
        Err(_) => None,
    }
}

/// The body, if it reads as that request.
fn if_rollback(alloc: Global, body: Vec<u8>, token: &str) -> Option<Vec<u8>>
    ensures { IfSome result (λ body. meaning body.items ≡ Some (rollback token.now)) }
{
    if reads_as_rollback(alloc, &body, token) {
        Some(body)
    } else {
        None
    }
}

fn reads_as_rollback(alloc: Global, body: &[u8], token: &str) -> bool
    ensures { result ≡ true → meaning body.now ≡ Some (rollback token.now) }
{
    let mut scratch = RequestScratch::new(alloc);
    match read_request(alloc, &mut scratch, body) {
        Ok(request) => is_rollback(&request, token),
        Err(_) => false,
    }
}

fn is_rollback(request: &RequestBody, token: &str) -> bool
    ensures { result ≡ true → request_view request.now ≡ rollback token.now }
{
    match request {
        RequestBody::Rollback { token: shown } => shown.as_str() == token,
        _ => false,
    }
}

fn body_of(alloc: Global, token: &str) -> Result<Vec<u8>, AllocError> {
    let mut to = Writer::new(Vec::with_capacity(alloc, 64)?);
    to.begin_object()?;
    to.key("op")?;
    to.string("rollback")?;
    to.key("token")?;
    to.string(token)?;
    to.end_object()?;
    Ok(to.into_inner())
}
