ghost use Rattle.std.specs.Prelude.{◌≡◌, codes, unwrap_or, []};
ghost use Rattle.std.specs.Option.{option_copied};
ghost use Rattle.shell_state.specs.State.{State};
ghost use Rattle.word_meaning.specs.References.{first_of_ifs as first_of_ifs_in, ifs as ifs_in, value_named as value_in};

use eb_bytes::Bytes;
use shell_vars::{Value, Vars};

/// The text of a variable, or of element 0 of an array.
pub fn value_named<'a>(vars: &'a Vars, name: &[u8]) -> Option<&'a Bytes>
    ensures { (at : State) → at.store ≡ vars.now.present → option_copied result ≡ value_in name.now at }
{
    Value::element(vars.get(name), 0)
}

/// The bytes that fields are split by: blank, tab and newline, where IFS is unset.
pub fn ifs(vars: &Vars) -> &[u8]
    ensures { (at : State) → at.store ≡ vars.now.present → result.now ≡ ifs_in at }
{
    match value_named(vars, b"IFS") {
        Some(text) => text.as_slice(),
        None => b" \t\n",
    }
}

/// What the elements of `*` are joined with: the first of these bytes, and nothing, where IFS is empty.
pub fn first_of_ifs(vars: &Vars) -> &[u8]
    ensures { (at : State) → at.store ≡ vars.now.present → result.now ≡ first_of_ifs_in at }
{
    let ifs = ifs(vars);
    match ifs.get(..1) {
        Some(first) => first,
        None => ifs,
    }
}

/// What a tilde stands for: HOME, and nothing where that is unset.
pub fn home(vars: &Vars) -> &[u8]
    ensures { (at : State) → at.store ≡ vars.now.present → result.now ≡ unwrap_or (value_in (codes "HOME") at) [] }
{
    match value_named(vars, b"HOME") {
        Some(text) => text.as_slice(),
        None => b"",
    }
}
