//! The parameters of a request.
ghost use Rattle.std.specs.Prelude.{◌≡◌};
ghost use Rattle.std.specs.Option.{option_map};
ghost use Rattle.pg_meaning.specs.Entries.{at_key};
ghost use Rattle.pg_value_core.specs.Given.{parameters_view};
ghost use Rattle.pg_value_core.specs.View.{view, entries_view};

use crate::value::Value;
use std::collections::BTreeMap;

/// Values under the names by which a query's text asks for them.
#[derive(Drop)]
pub struct Parameters {
    values: BTreeMap<String, Value>,
}

impl Parameters {
    /// The values of a map, in its own memory.
    pub fn from_map(values: BTreeMap<String, Value>) -> Self
        ensures { parameters_view result ≡ entries_view values.entries }
    {
        Parameters { values }
    }

    /// The value that a request gives for a name, written without the `$`.
    pub fn get(&self, name: &str) -> Option<&Value>
        ensures { option_map (λ v. view v.now) result ≡ at_key name.now (parameters_view self.now) }
    {
        self.values.get(name)
    }
}
