//! A reply, and what is told of the request beside it.
ghost use Rattle.std.specs.Prelude.{◌≡◌, IfOk};
ghost use Rattle.pg_tenant.specs.Changes.{reply_in};

use pg_json::ReplyBytes;
use pg_meaning::Fault;

/// The reply to a request, and whether the request may have changed what its tenant has: its graph, indexes, transaction or held rows.
#[derive(Drop)]
pub struct Noted {
    pub reply: ReplyBytes,
    pub changes: bool,
}

/// The reply where there is one, with what is told.
pub(crate) fn with_note(reply: Result<ReplyBytes, Fault>, changes: bool) -> Result<Noted, Fault>
    ensures reply { reply_in result ≡ reply }
    ensures changes { IfOk result (λ noted. noted.changes ≡ changes) }
{
    let reply = reply?;
    Ok(Noted { reply, changes })
}
