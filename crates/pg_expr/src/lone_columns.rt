//! Expressions that read a column of the rows and nothing else of them.
ghost use Rattle.std.specs.Prelude.{IfSome};
ghost use Rattle.pg_expr.specs.LoneColumns.{IsLoneColumn, ReadsColumn};
ghost use Rattle.pg_expr.specs.Prepared.{tree_of};

use crate::prepared::{Form, Prepared};
use pg_rows::Columns;

/// The column of a variable that stands alone: the first of its name.
pub fn lone_column(prepared: &Prepared<'_>, names: &Columns) -> Option<usize>
    ensures { IfSome result (λ at. IsLoneColumn names.now (tree_of names.now prepared.now) at) }
{
    match prepared.form {
        Form::Column(name, near) => names.find_near(near, name.text.as_str()),
        _ => None,
    }
}

/// The column of a variable, or of one whose property is read: the first of its name. At rows that have the same there
/// it gives the same.
pub fn read_column(prepared: &Prepared<'_>, names: &Columns) -> Option<usize>
    ensures { IfSome result (λ at. ReadsColumn names.now (tree_of names.now prepared.now) at) }
{
    match prepared.form {
        Form::Column(name, near) => names.find_near(near, name.text.as_str()),
        Form::Property(name, _, near) => names.find_near(near, name.text.as_str()),
        Form::Item(_, _, _) | Form::Other(_, _) => None,
    }
}
