//! A reply, and what is told of its request beside it.
ghost use Rattle.std.specs.Prelude.{◌≡◌, None};
ghost use Rattle.pg_json.specs.Refusals.{refusal_text};

use pg_json::{ReplyBytes, refusal};
use pg_meaning::Fault;

/// The reply to a request, and the place of the tenant of which the request may have changed the graph, indexes, transaction or held rows.
#[derive(Drop)]
pub struct Answered {
    pub reply: ReplyBytes,
    pub changed: Option<usize>,
}

/// A refusal, which changes nothing.
pub(crate) fn refused(fault: Fault) -> Answered
    ensures reply { result.reply ≡ refusal_text fault }
    ensures changed { result.changed ≡ None }
{
    let reply = refusal(fault);
    Answered {
        reply,
        changed: None,
    }
}
