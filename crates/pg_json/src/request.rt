//! What a client asks for.
ghost use Rattle.std.specs.Prelude.{◌≡◌, string_bytes};
ghost use Rattle.pg_json.specs.Bodies.{request_view};
ghost use Rattle.pg_json.specs.Requests.{token_of, with_token};

use pg_value_core::Parameters;

/// A request with its texts, and the parameters of a query by their names. A label and a key have at
/// least one byte. The page of a query is how many rows a page has, and else the number of held rows.
#[derive(Drop)]
pub enum RequestBody {
    Query {
        token: String,
        text: String,
        parameters: Parameters,
        page: Option<u64>,
    },
    Status {
        token: String,
    },
    CreateIndex {
        token: String,
        label: String,
        key: String,
    },
    DropIndex {
        token: String,
        label: String,
        key: String,
    },
    Begin {
        token: String,
    },
    Commit {
        token: String,
    },
    Rollback {
        token: String,
    },
    Pull {
        token: String,
        page: u64,
    },
    DropPage {
        token: String,
        page: u64,
    },
}

impl RequestBody {
    /// The token that the request shows.
    pub fn token(&self) -> &str
        ensures { result.now ≡ token_of (request_view self.now) }
    {
        match self {
            RequestBody::Query {
                token,
                text: _,
                parameters: _,
                page: _,
            }
            | RequestBody::Status { token }
            | RequestBody::CreateIndex {
                token,
                label: _,
                key: _,
            }
            | RequestBody::DropIndex {
                token,
                label: _,
                key: _,
            }
            | RequestBody::Begin { token }
            | RequestBody::Commit { token }
            | RequestBody::Rollback { token }
            | RequestBody::Pull { token, page: _ }
            | RequestBody::DropPage { token, page: _ } => token.as_str(),
        }
    }

    /// Has the request show this token, whatever it showed.
    pub fn set_token(&mut self, shown: String)
        ensures { request_view self.new ≡ with_token (string_bytes shown) (request_view self.old) }
    {
        match self {
            RequestBody::Query {
                token,
                text: _,
                parameters: _,
                page: _,
            } => *token = shown,
            RequestBody::Status { token } => *token = shown,
            RequestBody::CreateIndex {
                token,
                label: _,
                key: _,
            } => *token = shown,
            RequestBody::DropIndex {
                token,
                label: _,
                key: _,
            } => *token = shown,
            RequestBody::Begin { token } => *token = shown,
            RequestBody::Commit { token } => *token = shown,
            RequestBody::Rollback { token } => *token = shown,
            RequestBody::Pull { token, page: _ } => *token = shown,
            RequestBody::DropPage { token, page: _ } => *token = shown,
        }
    }
}
