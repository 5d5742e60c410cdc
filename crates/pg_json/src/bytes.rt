//! The bytes of a reply.
ghost use Rattle.std.specs.Prelude.{◌≡◌, ◌≤◌, length};
ghost use Rattle.pg_json.specs.Refusals.{refusal_text, done_text};
ghost use Rattle.pg_json.specs.Replies.{max_page};

use pg_meaning::Fault;
use std::marker::Model;

pub(crate) const MAX_REPLY: usize = 16_777_216;

#[derive(Drop)]
enum Body {
    Fixed(&'static str),
    Made(Vec<u8>),
}

/// A text of the program, or one that was written.
#[derive(Drop)]
pub struct ReplyBytes {
    body: Body,
}

impl Model for ReplyBytes {
    ghost use Rattle.std.specs.Prelude.{List, ℕ, ◌≤◌, length};
    ghost use Rattle.pg_json.specs.Replies.{max_page};
    ghost use Rattle.std.specs.Coded.{coded_list, coded_ℕ};
    ghost use Rattle.pg_json.specs.Bytes.{bytes_of};

    ghost Value = { List ℕ };

    ghost coded = { coded_list coded_ℕ };

    ghost view = { λ b. bytes_of b.body };

    ghost invariant = { λ b. length (bytes_of b.body) ≤ max_page };
}

impl ReplyBytes {
    pub(crate) fn made(bytes: Vec<u8>) -> ReplyBytes
        requires { length bytes.items ≤ max_page }
        ensures { result ≡ bytes.items }
    {
        ReplyBytes {
            body: Body::Made(bytes),
        }
    }

    fn fixed(text: &'static str) -> ReplyBytes
        requires { length text.now ≤ max_page }
        ensures { result ≡ text.entry.now }
    {
        ReplyBytes {
            body: Body::Fixed(text),
        }
    }

    /// The bytes of the reply's JSON text, without the length that a frame begins with.
    pub fn as_slice(&self) -> &[u8]
        ensures value { result.now ≡ self.now }
        ensures within { length self.now ≤ max_page }
    {
        match &self.body {
            Body::Fixed(text) => text.as_bytes(),
            Body::Made(bytes) => bytes.as_slice(),
        }
    }
}

/// The reply to a request that is carried out and has nothing to tell. It takes no memory.
pub fn done() -> ReplyBytes
    ensures { result ≡ done_text }
{
    ReplyBytes::fixed("{\"code\":0}")
}

/// The reply to a refused request. It takes no memory.
#[tactic(auto, using(crate::proofs::Codes::refusal_within))]
pub fn refusal(fault: Fault) -> ReplyBytes
    ensures { result ≡ refusal_text fault }
{
    ReplyBytes::fixed(text_of(fault))
}

fn text_of(fault: Fault) -> &'static str
    ensures { result.now ≡ refusal_text fault }
{
    match fault {
        Fault::FrameTooLong => "{\"code\":1,\"error\":\"FrameTooLong\"}",
        Fault::BadRequest => "{\"code\":2,\"error\":\"BadRequest\"}",
        Fault::UnknownToken => "{\"code\":3,\"error\":\"UnknownToken\"}",
        Fault::ReadOnly => "{\"code\":4,\"error\":\"ReadOnly\"}",
        Fault::TextTooLong => "{\"code\":5,\"error\":\"TextTooLong\"}",
        Fault::BadLexeme => "{\"code\":6,\"error\":\"BadLexeme\"}",
        Fault::BadSyntax => "{\"code\":7,\"error\":\"BadSyntax\"}",
        Fault::TooDeep => "{\"code\":8,\"error\":\"TooDeep\"}",
        Fault::UndefinedVariable => "{\"code\":9,\"error\":\"UndefinedVariable\"}",
        Fault::VariableAlreadyBound => "{\"code\":10,\"error\":\"VariableAlreadyBound\"}",
        Fault::BadAggregate => "{\"code\":11,\"error\":\"BadAggregate\"}",
        Fault::BadPattern => "{\"code\":12,\"error\":\"BadPattern\"}",
        Fault::UnknownFunction => "{\"code\":13,\"error\":\"UnknownFunction\"}",
        Fault::DuplicateColumn => "{\"code\":14,\"error\":\"DuplicateColumn\"}",
        Fault::MissingParameter => "{\"code\":15,\"error\":\"MissingParameter\"}",
        Fault::TypeFault => "{\"code\":16,\"error\":\"TypeFault\"}",
        Fault::Overflow => "{\"code\":17,\"error\":\"Overflow\"}",
        Fault::DivisionByZero => "{\"code\":18,\"error\":\"DivisionByZero\"}",
        Fault::ValueTooLarge => "{\"code\":19,\"error\":\"ValueTooLarge\"}",
        Fault::NotStorable => "{\"code\":20,\"error\":\"NotStorable\"}",
        Fault::MergeNull => "{\"code\":21,\"error\":\"MergeNull\"}",
        Fault::NodeStillConnected => "{\"code\":22,\"error\":\"NodeStillConnected\"}",
        Fault::DeletedEntity => "{\"code\":23,\"error\":\"DeletedEntity\"}",
        Fault::NegativeCount => "{\"code\":24,\"error\":\"NegativeCount\"}",
        Fault::StepQuota => "{\"code\":25,\"error\":\"StepQuota\"}",
        Fault::ElementQuota => "{\"code\":26,\"error\":\"ElementQuota\"}",
        Fault::IdsExhausted => "{\"code\":27,\"error\":\"IdsExhausted\"}",
        Fault::IndexExists => "{\"code\":28,\"error\":\"IndexExists\"}",
        Fault::NoSuchIndex => "{\"code\":29,\"error\":\"NoSuchIndex\"}",
        Fault::TooManyIndexes => "{\"code\":30,\"error\":\"TooManyIndexes\"}",
        Fault::ReplyTooLong => "{\"code\":31,\"error\":\"ReplyTooLong\"}",
        Fault::TenantBusy => "{\"code\":40,\"error\":\"TenantBusy\"}",
        Fault::NoTransaction => "{\"code\":41,\"error\":\"NoTransaction\"}",
        Fault::TransactionOpen => "{\"code\":42,\"error\":\"TransactionOpen\"}",
        Fault::NoSuchPage => "{\"code\":43,\"error\":\"NoSuchPage\"}",
        Fault::HeldRowsQuota => "{\"code\":44,\"error\":\"HeldRowsQuota\"}",
        Fault::OutOfMemory => "{\"code\":99,\"error\":\"OutOfMemory\"}",
    }
}
