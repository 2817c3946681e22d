ghost use Rattle.std.specs.Prelude.{◌≡◌};
ghost use Rattle.shell_vars.specs.Calls.{both};
ghost use Rattle.shell_vars.specs.Store.{no_attributes};

/// What a name is declared as (Bash Reference Manual, "Bash Builtin Commands": `export` and `readonly`).
#[derive(Clone, Copy, Debug, PartialEq, Eq)]
pub struct Attr {
    /// The name can be neither assigned nor unset.
    pub readonly: bool,
    /// The name is handed on to the environment of commands.
    pub exported: bool,
}

impl Attr {
    // No attributes.
    pub(crate) fn none() -> Attr
        ensures { result ≡ no_attributes }
    {
        Attr {
            readonly: false,
            exported: false,
        }
    }

    // The attributes that one of the two has.
    pub(crate) fn with(self, other: Attr) -> Attr
        ensures { result ≡ both self other }
    {
        Attr {
            readonly: self.readonly || other.readonly,
            exported: self.exported || other.exported,
        }
    }
}
