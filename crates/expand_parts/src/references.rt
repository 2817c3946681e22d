ghost use Rattle.std.specs.Prelude.{◌≡◌, IfOk};
ghost use Rattle.shell_state.specs.State.{State};
ghost use Rattle.eb_syntax.specs.declared.tree.SubPart.{out-SubPart};
ghost use Rattle.std.specs.Option.{option_copied};
ghost use Rattle.word_meaning.specs.References.{byte_of_part, name_of as name_in, part_is_nothing, star_of as star_in, star_of_byte, text_found as text_in};
ghost use Rattle.word_meaning.specs.Words.{asks_indices as asks_in};
ghost use Rattle.expand_values.specs.Seen.{found_of};

use crate::scene::Scene;
use eb_bytes::{Bytes, Memory};
use eb_syntax::{Blank, Op, Piece, Plain, Ref, SubPart};
use expand_marks::join;
use expand_operators::texts;
use expand_values::{Found, first_of_ifs};
use std::alloc::Global;

// Whether a part of a subscript stands for nothing.
fn is_nothing(part: &SubPart) -> bool
    ensures { result ≡ part_is_nothing (out-SubPart part.now) }
{
    match part {
        SubPart::Sub(_) => false,
        SubPart::Blank(blank) => matches!(blank, Blank::Continuation),
        SubPart::Piece(piece) => matches!(piece, Piece::Continuation),
    }
}

// Whether a part of a subscript is `*`, or `@`; none, where it is neither.
fn star_of_part(part: &SubPart) -> Option<bool>
    ensures { result ≡ star_of_byte (byte_of_part (out-SubPart part.now)) }
{
    match part {
        SubPart::Piece(Piece::Plain(Plain::Byte(byte))) => match *byte {
            b'@' => Some(false),
            b'*' => Some(true),
            _ => None,
        },
        _ => None,
    }
}

/// Whether a subscript is `*`, or `@`; none, where it is an expression.
pub(crate) fn star_of(parts: &[SubPart]) -> Option<bool>
    ensures { result ≡ star_in parts.now }
{
    let mut only: Option<&SubPart> = None;
    for part in parts {
        if !is_nothing(part) {
            if only.is_some() {
                return None;
            }
            only = Some(part);
        }
    }
    match only {
        Some(part) => star_of_part(part),
        None => None,
    }
}

/// Whether `${!..}` gives the indices of an array.
pub(crate) fn asks_indices(reference: &Ref, op: Option<&Op>) -> bool
    ensures { result ≡ asks_in reference.now (option_copied op.entry) }
{
    match (reference, op) {
        (Ref::Name(_, Some(parts)), None) => star_of(parts.get().as_slice()).is_some(),
        _ => false,
    }
}

/// A reference as it is written, without its subscript.
///
/// # Errors
/// `Memory` where there is no room for it.
pub(crate) fn name_of(alloc: Global, reference: &Ref) -> Result<Bytes, Memory>
    ensures { IfOk result (λ name. name ≡ name_in reference.now) }
{
    match reference {
        Ref::Name(name, _) => name.copy(alloc),
        Ref::Digits(digits) => digits.copy(alloc),
        Ref::Special(byte) => Bytes::from_slice(alloc, &[*byte]),
    }
}

/// What is found as one text.
///
/// # Errors
/// `Memory` where there is no room for it.
pub(crate) fn text_found(scene: &Scene<'_>, found: &Found) -> Result<Bytes, Memory>
    ensures { (at : State) → at.store ≡ scene.now.vars.now.present → IfOk result (λ text. text ≡ text_in (found_of found.now) at) }
{
    match found {
        Found::One(Some(text), _) => text.copy(scene.alloc),
        Found::One(None, _) => Ok(Bytes::new(scene.alloc)),
        Found::Many(star, source) => {
            let texts = texts(scene.alloc, source)?;
            join(
                scene.alloc,
                *star,
                first_of_ifs(scene.vars),
                texts.as_slice(),
            )
        }
    }
}
