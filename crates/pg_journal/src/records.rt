//! A record's bytes.
ghost use Rattle.std.specs.Prelude.{◌≡◌, ◌<◌, ◌≤◌, ◌+◌, ◌^◌, ◌++◌, ℕ, length, vec_len, vec_capacity, IfOk, OnOk, IsOk};
ghost use Rattle.pg_journal.specs.declared.digest.Reply.{Reply};
ghost use Rattle.pg_journal.specs.Records.{number, written, digest_after};
ghost use Rattle.pg_journal.specs.Views.{kept};

use crate::Reply;
use crate::digest::digest_on;
use std::alloc::AllocError;

/// The bytes of a record beside its tenant's name and its body.
pub(crate) const FIXED: usize = 40;

/// How many bytes a record takes in the file.
pub fn record_len(tenant: &[u8], body: &[u8]) -> u64
    ensures { (digest : ℕ) (reply : Reply) → length tenant.now + length body.now + 40 < 2 ^ 64
        → result ≡ length (written digest (kept tenant.now body.now reply)) }
{
    (tenant.len() as u64)
        .saturating_add(body.len() as u64)
        .saturating_add(FIXED as u64)
}

#[tactic(auto, unfolding(crate::specs::Records::number))]
fn put_number(made: &mut Vec<u8>, n: u64) -> Result<(), AllocError>
    ensures items { OnOk result (made.new.items ≡ made.old.items ++ number n) }
    ensures len { OnOk result (vec_len made.new ≡ vec_len made.old + 8) }
    ensures capacity { vec_capacity made.old ≤ vec_capacity made.new }
    ensures fits { vec_len made.old + 8 ≤ vec_capacity made.old → IsOk result }
{
    made.extend_from_slice(&n.to_be_bytes())
}

fn put_lengths(
    made: &mut Vec<u8>,
    tenant: usize,
    body: usize,
    reply: Reply,
) -> Result<(), AllocError>
    ensures items { OnOk result (made.new.items ≡ made.old.items
        ++ (number tenant ++ number body ++ number reply.length ++ number reply.digest)) }
    ensures len { OnOk result (vec_len made.new ≡ vec_len made.old + 32) }
    ensures capacity { vec_capacity made.old ≤ vec_capacity made.new }
    ensures fits { vec_len made.old + 32 ≤ vec_capacity made.old → IsOk result }
{
    put_number(made, tenant as u64)?;
    put_number(made, body as u64)?;
    put_number(made, reply.length)?;
    put_number(made, reply.digest)
}

/// Puts a record behind the bytes that are there, where the digest of the records is this one, and gives the digest
/// up to it. It fails only where there is no room.
pub(crate) fn put(
    made: &mut Vec<u8>,
    digest: u64,
    tenant: &[u8],
    body: &[u8],
    reply: Reply,
) -> Result<u64, AllocError>
    ensures bytes { OnOk result (made.new.items
        ≡ made.old.items ++ written digest (kept tenant.now body.now reply)) }
    ensures digest { IfOk result
        (λ next. next ≡ digest_after digest (kept tenant.now body.now reply)) }
    ensures fits { vec_len made.old + (40 + (length tenant.now + length body.now))
        ≤ vec_capacity made.old → IsOk result }
{
    let start = made.len();
    put_lengths(made, tenant.len(), body.len(), reply)?;
    made.extend_from_slice(tenant)?;
    made.extend_from_slice(body)?;
    let digest = digest_on(digest, &made[start..]);
    put_number(made, digest)?;
    Ok(digest)
}

/// What a slot says of the records.
#[tactic(auto, unfolding(crate::specs::Records::number))]
pub(crate) fn tally(size: u64, digest: u64) -> [u8; 16]
    ensures { result ≡ number size ++ number digest }
{
    let [a, b, c, d, e, f, g, h] = size.to_be_bytes();
    let [i, j, k, l, m, n, o, p] = digest.to_be_bytes();
    [a, b, c, d, e, f, g, h, i, j, k, l, m, n, o, p]
}
