//! Expressions made ready, once a clause, to be evaluated at its rows.
ghost use Rattle.std.specs.Prelude.{◌≡◌, IfOk};
ghost use Rattle.pg_expr.specs.Prepared.{form_tree, tree_of};
ghost use Rattle.pg_syntax_tree.specs.View.{expression_view};

use crate::plain_operands::{variable_and_key, variable_and_place, variable_of};
use crate::scalar_trees::may_tell;
use pg_rows::Columns;
use pg_syntax_tree::{Expression, Name};
use std::alloc::{AllocError, Global};

/// Of so many columns the place of one is looked up before any row; of more, a row looks for it by its name.
const FEW: usize = 8;

/// An expression that was made ready for rows of given columns.
#[derive(Clone, Copy)]
pub struct Prepared<'a> {
    pub(crate) form: Form<'a>,
}

/// What a prepared expression is: a variable, a property of one, or the item at a place of one, each with the place where its column
/// mostly stands; or any expression, and whether scalars are asked first.
#[derive(Clone, Copy)]
pub(crate) enum Form<'a> {
    Column(&'a Name, usize),
    Property(&'a Name, &'a Name, usize),
    Item(&'a Name, usize, usize),
    Other(&'a Expression, bool),
}

/// Borrows the expression, and looks once for the column that it reads, or whether scalars may tell what it gives. It asks for no memory
/// today; the error leaves room for a form that does.
pub fn prepare<'a>(
    _alloc: Global,
    expression: &'a Expression,
    names: &Columns,
) -> Result<Prepared<'a>, AllocError>
    ensures { IfOk result (λ p. tree_of names.now p ≡ expression_view expression.now) }
{
    Ok(Prepared {
        form: form_of(expression, names),
    })
}

fn form_of<'a>(expression: &'a Expression, names: &Columns) -> Form<'a>
    ensures { form_tree result ≡ expression_view expression.now }
{
    if let Some(name) = variable_of(expression) {
        return Form::Column(name, near(names, name));
    }
    if let Some((name, key)) = variable_and_key(expression) {
        return Form::Property(name, key, near(names, name));
    }
    if let Some((name, place)) = variable_and_place(expression) {
        return Form::Item(name, place, near(names, name));
    }
    Form::Other(expression, may_tell(expression))
}

/// Where the column of a name stands among few; else any place.
fn near(names: &Columns, name: &Name) -> usize {
    // `WITH *` prepares each of its columns, in each clause
    if names.len() > FEW {
        return 0;
    }
    names.find(name.text.as_str()).unwrap_or(0)
}
