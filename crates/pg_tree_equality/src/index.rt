//! Items found by their expressions.
ghost use Rattle.std.specs.Prelude.{◌≡◌, [], IfOk, map};
ghost use Rattle.std.specs.List.{list_any};
ghost use Rattle.pg_tree_equality.specs.Codes.{with_expression};
ghost use Rattle.pg_tree_equality.specs.Index.{IsIndex};
ghost use Rattle.pg_meaning.specs.Trees.{same_expression};
ghost use Rattle.pg_syntax_tree.specs.View.{expression_view, item_view};

use crate::codes::add_expression;
use crate::trees::same_expression;
use pg_syntax_tree::{Expression, Item};
use std::alloc::{AllocError, Global};
use std::collections::BTreeMap;

/// The expressions of items, under their bytes.
pub type ItemIndex<'a> = BTreeMap<Vec<u8>, Vec<&'a Expression>>;

fn code_of(alloc: Global, expression: &Expression) -> Result<Vec<u8>, AllocError>
    ensures { IfOk result (λ v. v.items ≡ with_expression (expression_view expression.now) []) }
{
    let mut code = Vec::new(alloc);
    add_expression(&mut code, expression)?;
    Ok(code)
}

/// The expressions of the items, each under its bytes.
pub fn index_of<'a>(alloc: Global, items: &'a Vec<Item>) -> Result<ItemIndex<'a>, AllocError>
    ensures { IfOk result (λ index. IsIndex index (map item_view items.now.items)) }
{
    let mut index = BTreeMap::new(alloc);
    for item in items {
        let code = code_of(alloc, &item.value)?;
        let mut found = match index.remove(&code) {
            Some(found) => found,
            None => Vec::new(alloc),
        };
        found.push(&item.value)?;
        index.insert(code, found)?;
    }
    Ok(index)
}

fn is_among(expressions: &Vec<&Expression>, key: &Expression) -> bool
    ensures { result
        ≡ list_any (λ x. same_expression x (expression_view key.now))
        (map (λ b. expression_view b.now) expressions.now.items) }
{
    for expression in expressions {
        if same_expression(*expression, key) {
            return true;
        }
    }
    false
}

/// Whether an expression is that of an item.
pub fn is_item(
    alloc: Global,
    index: &ItemIndex<'_>,
    items: &Vec<Item>,
    key: &Expression,
) -> Result<bool, AllocError>
    requires { IsIndex index.now (map item_view items.now.items) }
    ensures { IfOk result (λ b. b ≡ list_any
        (λ x. same_expression x.value (expression_view key.now)) (map item_view items.now.items)) }
{
    let code = code_of(alloc, key)?;
    Ok(match index.get(&code) {
        Some(expressions) => is_among(expressions, key),
        None => false,
    })
}
