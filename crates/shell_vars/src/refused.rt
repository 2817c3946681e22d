ghost use Rattle.std.specs.Prelude.{◌≡◌};
ghost use Rattle.shell_vars.specs.Refused.{is_refused as refused};

/// Whether reading the variable of this name is refused, since a shell makes up its value as it is read (Bash Reference
/// Manual, "Bash Variables"): PIPESTATUS, RANDOM, SECONDS, LINENO, BASH_SOURCE, BASH_VERSION and BASH_VERSINFO.
pub fn is_refused(name: &[u8]) -> bool
    ensures { result ≡ refused name.now }
{
    name == b"PIPESTATUS".as_slice()
        || name == b"RANDOM".as_slice()
        || name == b"SECONDS".as_slice()
        || name == b"LINENO".as_slice()
        || name == b"BASH_SOURCE".as_slice()
        || name == b"BASH_VERSION".as_slice()
        || name == b"BASH_VERSINFO".as_slice()
}
