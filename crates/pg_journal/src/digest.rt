//! Digests of bytes.
ghost use Rattle.std.specs.Prelude.{◌≡◌, length};
ghost use Rattle.pg_journal.specs.Digest.{digest_on, digest_of, digest_of_none};

const STEP: u64 = 1_099_511_628_211;

/// The digest of no bytes.
pub(crate) const NONE: u64 = 14_695_981_039_346_656_037;

/// The digest of bytes that stand behind those with this one.
pub(crate) fn digest_on(digest: u64, bytes: &[u8]) -> u64
    ensures { result ≡ digest_on digest bytes.now }
{
    let mut sum = digest;
    for byte in bytes {
        sum = sum.wrapping_mul(STEP).wrapping_add(u64::from(*byte));
    }
    sum
}

/// What is kept of a reply.
#[derive(Clone, Copy, Debug, PartialEq, Eq)]
pub struct Reply {
    pub length: u64,
    pub digest: u64,
}

impl Reply {
    /// What is kept of a reply: how long it is, and a digest of its bytes.
    pub fn of(reply: &[u8]) -> Reply
        ensures length { result.length ≡ length reply.now }
        ensures digest { result.digest ≡ digest_of reply.now }
    {
        Reply {
            length: reply.len() as u64,
            digest: digest_on(NONE, reply),
        }
    }
}
