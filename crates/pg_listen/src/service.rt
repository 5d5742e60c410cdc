//! What answers requests.
ghost use Rattle.std.specs.Prelude.{◌≡◌, true, ℕ, List, IfSome, ⊤};
ghost use Rattle.pg_listen.specs.Listens.{IsRollback};
ghost use Rattle.pg_server.specs.Handles.{Handles};

use pg_graph::Tables;
use pg_json::ReplyBytes;
use pg_server::Server;

pub(crate) trait Service {
    // From the first state, a body may get this reply, which leaves the second state.
    ghost answers: { Self → List ℕ → List ℕ → Self → Type 0 };

    // Keeping what was answered, or trying to, may lead from the first state to the second.
    ghost settles: { Self → Self → Type 0 };

    // All that was answered is kept, as far as it is to be.
    ghost all_kept: { Self → Type 0 };

    // What the server asks on its own.
    ghost is_own: { List ℕ → Type 0 };

    fn answer(&mut self, body: &[u8]) -> ReplyBytes
        ensures { answers self.old body.now result self.new };

    /// Whether all that was answered is known to be kept.
    fn is_settled(&self) -> bool
        ensures { result ≡ true → all_kept self.now };

    /// Has all kept that was answered, and says whether it is. If it isn't, it never will be.
    fn settle(&mut self) -> bool
        ensures { settles self.old self.new };

    /// How many bytes of it wait to be kept.
    fn unsettled(&self) -> usize;

    /// The place of the tenant whose token a body shows, if it is a request and does.
    fn tenant(&self, body: &[u8]) -> Option<usize>;

    /// Whether the tenant at a place has a transaction open.
    fn is_open(&self, place: usize) -> bool;

    /// The body of a request that rolls that back, if there is one and memory for it.
    fn rollback(&self, place: usize) -> Option<Vec<u8>>
        ensures { IfSome result (λ body. is_own body.items) };
}

impl<T: Tables> Service for Server<T> {
    ghost answers = { λ old body reply new. Handles old.state body reply new.state };

    // Nothing of it outlasts its process.
    ghost settles = { λ old new. new ≡ old };

    ghost all_kept = { λ _. ⊤ };

    ghost is_own = { IsRollback };

    fn answer(&mut self, body: &[u8]) -> ReplyBytes {
        self.handle(body)
    }

    fn is_settled(&self) -> bool {
        true
    }

    fn settle(&mut self) -> bool {
        true
    }

    fn unsettled(&self) -> usize {
        0
    }

    fn tenant(&self, body: &[u8]) -> Option<usize> {
        self.tenant_of(body)
    }

    fn is_open(&self, place: usize) -> bool {
        self.has_transaction(place)
    }

    fn rollback(&self, place: usize) -> Option<Vec<u8>> {
        self.rollback_body(place)
    }
}
