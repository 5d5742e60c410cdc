//! The page of a request: how many rows a page is to have, or the number of held rows.
ghost use Rattle.std.specs.Prelude.{◌≡◌, ◌<◌, ◌≤◌, None, Some, IfOk, IfErr, OnOk, length};
ghost use Rattle.json.specs.Json.{value};
ghost use Rattle.serde_json.specs.Read.{of_json, converted};
ghost use Rattle.pg_json.specs.Fields.{size_given};
ghost use Rattle.pg_json.specs.Replies.{natural};
ghost use Rattle.pg_meaning.specs.Meters.{greatest_id};
ghost use Rattle.pg_meaning.specs.declared.fault.Fault.TheVariants.{BadRequest};

use crate::number::natural_number;
use crate::unread::Unread;
use json::{Reader, Token};
use pg_meaning::Fault;

/// The rows that a page may have.
pub(crate) const GREATEST_PAGE: u64 = 10_000;

/// The number that comes next, if it may be a page's.
pub(crate) fn read_page(reader: &mut Reader<'_>) -> Result<u64, Unread>
    ensures ok { IfOk result
        (λ page. converted of_json (value 126 reader.old) ≡ Some (natural page, reader.new)) }
    ensures within { IfOk result (λ page. page ≤ greatest_id) }
    ensures shorter { OnOk result (length reader.new < length reader.old) }
{
    let Some(Token::Number(text)) = reader.next() else {
        return Err(Unread::Unclear);
    };
    match natural_number(text) {
        Some(page) => Ok(page),
        None => Err(Unread::Unclear),
    }
}

/// How many rows a page is to have, if it may have so many.
pub(crate) fn page_size(page: Option<u64>) -> Result<Option<u64>, Fault>
    ensures ok { IfOk result (λ size. size_given page ≡ Some size) }
    ensures kind { IfErr result (λ e. e ≡ BadRequest) }
    ensures refused { IfErr result (λ e. size_given page ≡ None) }
{
    let Some(size) = page else {
        return Ok(None);
    };
    if size < 1 || size > GREATEST_PAGE {
        return Err(Fault::BadRequest);
    }
    Ok(Some(size))
}
