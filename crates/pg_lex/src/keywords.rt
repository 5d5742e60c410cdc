//! Which words are reserved.

ghost use Rattle.std.specs.Prelude.{◌≡◌, map};
ghost use Rattle.std.specs.Str.{str_to_ascii_lowercase};
ghost use Rattle.pg_meaning.specs.Tokens as spec;

use pg_meaning::Keyword;

// The keywords, by how many letters they have.
const OF_TWO: [(&str, Keyword); 6] = [
    ("as", Keyword::As),
    ("by", Keyword::By),
    ("in", Keyword::In),
    ("is", Keyword::Is),
    ("on", Keyword::On),
    ("or", Keyword::Or),
];

const OF_THREE: [(&str, Keyword); 6] = [
    ("and", Keyword::And),
    ("asc", Keyword::Asc),
    ("end", Keyword::End),
    ("not", Keyword::Not),
    ("set", Keyword::Set),
    ("xor", Keyword::Xor),
];

const OF_FOUR: [(&str, Keyword); 10] = [
    ("case", Keyword::Case),
    ("desc", Keyword::Desc),
    ("else", Keyword::Else),
    ("ends", Keyword::Ends),
    ("null", Keyword::Null),
    ("skip", Keyword::Skip),
    ("then", Keyword::Then),
    ("true", Keyword::True),
    ("when", Keyword::When),
    ("with", Keyword::With),
];

const OF_FIVE: [(&str, Keyword); 6] = [
    ("false", Keyword::False),
    ("limit", Keyword::Limit),
    ("match", Keyword::Match),
    ("merge", Keyword::Merge),
    ("order", Keyword::Order),
    ("where", Keyword::Where),
];

const OF_SIX: [(&str, Keyword); 7] = [
    ("create", Keyword::Create),
    ("delete", Keyword::Delete),
    ("detach", Keyword::Detach),
    ("remove", Keyword::Remove),
    ("return", Keyword::Return),
    ("starts", Keyword::Starts),
    ("unwind", Keyword::Unwind),
];

const LONGER: [(&str, Keyword); 5] = [
    ("ascending", Keyword::Ascending),
    ("contains", Keyword::Contains),
    ("descending", Keyword::Descending),
    ("distinct", Keyword::Distinct),
    ("optional", Keyword::Optional),
];

/// The keyword of those that a word is, whatever the ASCII case of either.
fn keyword_among(keywords: &[(&str, Keyword)], word: &str) -> Option<Keyword>
    ensures { result
        ≡ spec.keyword_among (map (λ p. (str_to_ascii_lowercase p.0.now, p.1)) keywords.now)
        (str_to_ascii_lowercase word.now) }
{
    for (text, keyword) in keywords {
        if word.eq_ignore_ascii_case(text) {
            return Some(*keyword);
        }
    }
    None
}

/// The keyword that a word is, whatever its ASCII case.
pub(crate) fn keyword_of(word: &str) -> Option<Keyword>
    ensures { result ≡ spec.keyword_of word.now }
{
    match word.len() {
        0 | 1 => None,
        2 => keyword_among(&OF_TWO, word),
        3 => keyword_among(&OF_THREE, word),
        4 => keyword_among(&OF_FOUR, word),
        5 => keyword_among(&OF_FIVE, word),
        6 => keyword_among(&OF_SIX, word),
        _ => keyword_among(&LONGER, word),
    }
}
