ghost use Rattle.std.specs.Prelude.{◌≡◌, IfErr, IfOk, Ok};
ghost use Rattle.bash_params.specs.Answer.{Refuses};
ghost use Rattle.shell_state.specs.State.{State};
ghost use Rattle.word_meaning.specs.Operators.{slices, source_sliced};
ghost use Rattle.expand_values.specs.Seen.{Finds, found_of, source_of};
ghost use Rattle.expand_operators.specs.Cuts.{IsCut};

use bash_params::{ParamErr, slice as slice_array, slice_parameters, substring};
use eb_bytes::{Bytes, Memory};
use expand_values::{Found, Source};
use shell_state::{Fault, Stop};
use sqlite_items::Items as List;
use std::alloc::Global;

// What an error of a slice is to a script.
fn stop_of(alloc: Global, name: &[u8], error: ParamErr) -> Stop
    ensures { IsCut result name.now error }
{
    match error {
        ParamErr::BadSubstitution => match Bytes::from_slice(alloc, name) {
            Ok(name) => Stop::Fault(Fault::BadSubstitution(name)),
            Err(Memory) => Stop::Memory,
        },
        ParamErr::ValueSize => Stop::Fault(Fault::ValueSize),
        ParamErr::Memory => Stop::Memory,
    }
}

/// A part of what is found: bytes of a text, or elements of a list.
///
/// # Errors
/// `BadSubstitution` with the name where the length of a list is negative, or the end of a text lies before its offset;
/// `Memory`.
#[tactic(auto, using(crate::proofs::Cut::refused_text, crate::proofs::Cut::refused_list))]
pub fn slice(
    alloc: Global,
    name: &[u8],
    offset: i64,
    length: Option<i64>,
    found: &Found,
) -> Result<Found, Stop>
    ensures { (at : State) → Finds result (slices name.now offset length (found_of found.now) at) at }
{
    match found {
        Found::One(None, _) => Ok(Found::One(None, None)),
        Found::One(Some(text), _) => match substring(alloc, text.as_slice(), offset, length) {
            Ok(part) => Ok(Found::One(Some(part), None)),
            Err(error) => Err(stop_of(alloc, name, error)),
        },
        Found::Many(star, source) => match slice_source(alloc, source, offset, length) {
            Ok(texts) => Ok(Found::Many(*star, Source::Arguments(List::from_vec(texts)))),
            Err(error) => Err(stop_of(alloc, name, error)),
        },
    }
}

// The elements of a list from an offset on; before the arguments stands the name of the shell.
fn slice_source(
    alloc: Global,
    source: &Source,
    offset: i64,
    length: Option<i64>,
) -> Result<Vec<Bytes>, ParamErr>
    ensures ok { IfOk result (λ texts. source_sliced offset length (source_of source.now) ≡ Ok texts.items) }
    ensures refused { IfErr result (λ e. Refuses e (source_sliced offset length (source_of source.now))) }
{
    match source {
        Source::Array(elements) => slice_array(alloc, elements, offset, length),
        Source::Arguments(texts) => slice_parameters(
            alloc,
            b"ebuild",
            texts.as_slice(),
            offset,
            length,
        ),
    }
}
