//! The texts of names in the tree.
ghost use Rattle.std.specs.Prelude.{◌≡◌, IfOk};
ghost use Rattle.pg_meaning.specs.Patterns.{texts_of as meant_texts, types_of};
ghost use Rattle.pg_meaning.specs.Updates.{first_text};
ghost use Rattle.pg_store.specs.Stores.{texts_of};
ghost use Rattle.pg_syntax_tree.specs.View.{names_view, relationship_view};

use pg_syntax_tree::{Name, RelationshipPattern};
use std::alloc::{AllocError, Global};

/// The texts of labels, as they stand.
pub fn label_texts<'a>(alloc: Global, labels: &'a Vec<Name>) -> Result<Vec<&'a str>, AllocError>
    ensures { IfOk result
        (λ texts. texts_of texts.items ≡ meant_texts (names_view labels.now.items)) }
{
    let mut texts = Vec::with_capacity(alloc, labels.len())?;
    for label in labels {
        texts.push(label.text.as_str())?;
    }
    Ok(texts)
}

/// The text of a relationship's first type, or nothing where it has none.
pub(crate) fn type_text(pattern: &RelationshipPattern) -> &str
    ensures { result.now ≡ first_text (types_of (relationship_view pattern.now)) }
{
    match &pattern.detail {
        Some(detail) => match detail.types.first() {
            Some(kind) => kind.name.text.as_str(),
            None => "",
        },
        None => "",
    }
}
