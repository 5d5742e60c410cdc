//! What a clause does with its patterns.
ghost use Rattle.std.specs.Prelude.{◌≡◌};
ghost use Rattle.pg_meaning.specs.StaticFaults as spec;
ghost use Rattle.pg_scope.specs.Modes.{mode_view};

#[derive(Clone, Copy)]
pub(crate) enum Mode {
    Matching,
    Creating,
    Merging,
}

impl Mode {
    pub(crate) fn is_matching(self) -> bool
        ensures { result ≡ spec.is_matching (mode_view self) }
    {
        self == Mode::Matching
    }

    pub(crate) fn is_creating(self) -> bool
        ensures { result ≡ spec.is_creating (mode_view self) }
    {
        self == Mode::Creating
    }
}
