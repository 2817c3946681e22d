ghost use Rattle.std.specs.Prelude.{◌≡◌, Some, decimal as decimal_text};
ghost use Rattle.std.specs.Option.{option_copied};
ghost use Rattle.shell_state.specs.Outcome.{Outcome, and_then, pure};
ghost use Rattle.shell_state.specs.State.{State};
ghost use Rattle.eb_syntax.specs.Tree.{Ref as Reference};
ghost use Rattle.eb_syntax.specs.declared.tree.AP.TheOpen.{Dollar-F, Param-F};
ghost use Rattle.eb_syntax.specs.declared.tree.Dollar.{out-Dollar};
ghost use Rattle.eb_syntax.specs.declared.tree.Param.{out-Param};
ghost use Rattle.word_meaning.specs.Marks.{emitted, given};
ghost use Rattle.word_meaning.specs.Operators.{length_of as length_in, shown};
ghost use Rattle.word_meaning.specs.References as refs;
ghost use Rattle.word_meaning.specs.References.{name_of as name_in};
ghost use Rattle.word_meaning.specs.Words.{dollar_at, index, inside, operated as operated_in, param_at};
ghost use Rattle.expand_values.specs.Seen.{Finds, found_of};
ghost use Rattle.expand_parts.specs.Acts.{Acts, Sees};
ghost use Rattle.expand_parts.specs.Params.{IsReferred, Refers};
ghost use Rattle.expand_parts.specs.Rest.{param_found as param_found_in, pointed_at, pointed_found, Sub};

use crate::level::{Act, Parts, Target, Use};
use crate::operators::operated;
use crate::refer::{Referred, refer};
use crate::references::{asks_indices, name_of, text_found};
use crate::scene::{Scene, open, unsupported};
use eb_bytes::{Bytes, decimal};
use eb_syntax::{AP, Dollar, Op, Param, Ref};
use expand_marks::Given;
use expand_operators::{indices, length_of, show};
use expand_values::{Found, positional, special, variable};
use shared::Shared;
use shell_state::Stop;
use sqlite_items::Items as List;
use word_meaning::{Mode, Tildes};

/// What is found, as its text or its elements.
///
/// # Errors
/// `Memory` where there is no room for it.
pub fn shown_act(scene: &Scene<'_>, mode: Mode, quoted: bool, found: &Found) -> Result<Act, Stop>
    ensures { (sub : Sub) (at : State) → Sees scene.now at → Acts result sub (shown mode quoted (found_of found.now) at) scene.now.room at }
{
    Ok(Act::Give(show(scene.alloc, scene.vars, mode, quoted, found)?))
}

// What was looked for, as its text or its elements.
#[tactic(auto, using(crate::proofs::Params::shown_so, crate::proofs::Params::shown_not))]
fn shown_if_found(
    scene: &Scene<'_>,
    mode: Mode,
    quoted: bool,
    found: Result<Found, Stop>,
) -> Result<Act, Stop>
    ensures { (sub : Sub) (o : Outcome refs.Found) (at : State) → Sees scene.now at → Finds found o at →
        Acts result sub (and_then o (shown mode quoted)) scene.now.room at }
{
    match found {
        Ok(found) => shown_act(scene, mode, quoted, &found),
        Err(stopped) => Err(stopped),
    }
}

// `$((..))`
#[tactic(auto, using(crate::proofs::OpenedMore::arithmetic_opens))]
fn arithmetic(
    scene: &Scene<'_>,
    mode: Mode,
    quoted: bool,
    parts: &Shared<List<AP>>,
) -> Result<Act, Stop>
    ensures { (sub : Sub) (at : State) → Acts result sub (dollar_at sub (inside sub scene.now.room) mode quoted (Dollar-F.Dollar::Arith parts.now) at) scene.now.room at }
{
    open(
        scene,
        Parts::Arith(parts.share()?),
        Mode::Text,
        Tildes::Nowhere,
        Use::Arithmetic(quoted),
    )
}

// `$NAME`
fn by_name(scene: &Scene<'_>, mode: Mode, quoted: bool, name: &[u8]) -> Result<Act, Stop>
    ensures { (sub : Sub) (at : State) → Sees scene.now at → Acts result sub (dollar_at sub (inside sub scene.now.room) mode quoted (Dollar-F.Name name.now) at) scene.now.room at }
{
    shown_if_found(scene, mode, quoted, variable(scene.alloc, scene.vars, name))
}

// `$1`
fn by_digit(scene: &Scene<'_>, mode: Mode, quoted: bool, digit: u8) -> Result<Act, Stop>
    ensures { (sub : Sub) (at : State) → Sees scene.now at → Acts result sub (dollar_at sub (inside sub scene.now.room) mode quoted (Dollar-F.Digit digit) at) scene.now.room at }
{
    shown_if_found(
        scene,
        mode,
        quoted,
        positional(scene.alloc, scene.args, &[digit]),
    )
}

/// What a dollar begins.
pub(crate) fn dollar(
    scene: &Scene<'_>,
    mode: Mode,
    quoted: bool,
    dollar: &Dollar,
) -> Result<Act, Stop>
    ensures { (sub : Sub) (at : State) → Sees scene.now at → Acts result sub (dollar_at sub (inside sub scene.now.room) mode quoted (out-Dollar dollar.now) at) scene.now.room at }
{
    match dollar {
        Dollar::Arith(parts) => arithmetic(scene, mode, quoted, parts),
        Dollar::Command(items) => Ok(Act::Run(quoted, items.share()?)),
        Dollar::Param(found) => param(scene, mode, quoted, found),
        Dollar::Name(name) => by_name(scene, mode, quoted, name.get().as_slice()),
        Dollar::Digit(digit) => by_digit(scene, mode, quoted, *digit),
        Dollar::Special(byte) => shown_if_found(
            scene,
            mode,
            quoted,
            special(scene.alloc, scene.args, scene.status, *byte),
        ),
    }
}

// A parameter, by what its reference is.
#[tactic(auto, using(crate::proofs::Params::found_goes, crate::proofs::Params::subscript_goes, crate::proofs::Params::not_found))]
fn param_by(
    scene: &Scene<'_>,
    mode: Mode,
    quoted: bool,
    param: &Shared<Param>,
    referred: Result<Referred, Stop>,
) -> Result<Act, Stop>
    ensures { (sub : Sub) (r : Reference) (at : State) → Sees scene.now at → IsReferred (out-Param param.now) r →
        Refers referred r (index sub (inside sub scene.now.room)) at →
        Acts result sub (param_at sub (inside sub scene.now.room) mode quoted (out-Param param.now) at) scene.now.room at }
{
    match referred {
        Ok(Referred::Found(found)) => found_act(scene, mode, quoted, param, found),
        Ok(Referred::Subscript(parts)) => open(
            scene,
            Parts::Subscript(parts),
            Mode::Text,
            Tildes::Nowhere,
            Use::Index(mode, quoted, param.share()?),
        ),
        Err(stopped) => Err(stopped),
    }
}

// A parameter.
#[tactic(auto, using(crate::proofs::Refused::refused))]
fn param(scene: &Scene<'_>, mode: Mode, quoted: bool, param: &Shared<Param>) -> Result<Act, Stop>
    ensures { (sub : Sub) (at : State) → Sees scene.now at → Acts result sub (param_at sub (inside sub scene.now.room) mode quoted (out-Param param.now) at) scene.now.room at }
{
    match param.get() {
        Param::Names(_, _) => Err(unsupported(scene.alloc, b"prefix names")),
        Param::Length(reference) => {
            param_by(scene, mode, quoted, param, refer(scene, reference))
        }
        Param::Indirect(reference, _) => {
            param_by(scene, mode, quoted, param, refer(scene, reference))
        }
        Param::Value(reference, _) => {
            param_by(scene, mode, quoted, param, refer(scene, reference))
        }
    }
}

/// A parameter, once what it refers to is found.
///
/// # Errors
/// `Unsupported` where it asks for names by their beginning; the fault of its operator; `Memory`.
#[tactic(auto, using(crate::proofs::Refused::refused))]
pub fn found_act(
    scene: &Scene<'_>,
    mode: Mode,
    quoted: bool,
    param: &Shared<Param>,
    found: Found,
) -> Result<Act, Stop>
    ensures { (sub : Sub) (at : State) → Sees scene.now at → Acts result sub (param_found_in sub (inside sub scene.now.room) mode quoted (out-Param param.now) (found_of found) at) scene.now.room at }
{
    match param.get() {
        Param::Length(_) => counted(scene, quoted, &found),
        Param::Names(_, _) => Err(unsupported(scene.alloc, b"prefix names")),
        Param::Indirect(reference, op) => {
            points(scene, mode, quoted, param, reference, op.as_ref(), found)
        }
        Param::Value(reference, op) => {
            value_of(scene, mode, quoted, reference, op.as_ref(), found)
        }
    }
}

// `${!..}`: the indices of an array, or the reference that the text is.
#[tactic(auto, using(crate::proofs::Params::points, crate::proofs::Params::shows_indices))]
fn points(
    scene: &Scene<'_>,
    mode: Mode,
    quoted: bool,
    param: &Shared<Param>,
    reference: &Ref,
    op: Option<&Op>,
    found: Found,
) -> Result<Act, Stop>
    ensures { (sub : Sub) (at : State) → Sees scene.now at → out-Param param.now ≡ Param-F.Indirect reference.now (option_copied op.entry) →
        Acts result sub (param_found_in sub (inside sub scene.now.room) mode quoted (Param-F.Indirect reference.now (option_copied op.entry)) (found_of found) at) scene.now.room at }
{
    if asks_indices(reference, op) {
        return shown_act(scene, mode, quoted, &indices(scene.alloc, found)?);
    }
    Ok(Act::Point(mode, quoted, param.share()?, text_found(scene, &found)?))
}

// A parameter with its operator.
fn value_of(
    scene: &Scene<'_>,
    mode: Mode,
    quoted: bool,
    reference: &Ref,
    op: Option<&Op>,
    found: Found,
) -> Result<Act, Stop>
    ensures { (sub : Sub) (at : State) → Sees scene.now at →
        Acts result sub (operated_in sub (inside sub scene.now.room) mode quoted (name_in reference.now) (option_copied op.entry) (found_of found) at) scene.now.room at }
{
    let to = Target {
        mode,
        quoted,
        name: name_of(scene.alloc, reference)?,
    };
    operated(scene, to, op, found)
}

// `${#..}`
fn counted(scene: &Scene<'_>, quoted: bool, found: &Found) -> Result<Act, Stop>
    ensures { (sub : Sub) (at : State) → Acts result sub (pure (given (emitted quoted (decimal_text (length_in (found_of found.now))))) at) scene.now.room at }
{
    let text = decimal(scene.alloc, length_of(found) as u64)?;
    Ok(Act::Give(Given::of_text(scene.alloc, quoted, text.as_slice())?))
}

// A parameter that points to another one, by what the reference that its text is comes to.
#[tactic(auto, using(crate::proofs::Params::pointed_found_goes, crate::proofs::Params::pointed_subscript_goes, crate::proofs::Params::pointed_not_found))]
fn pointed_by(
    scene: &Scene<'_>,
    mode: Mode,
    quoted: bool,
    param: &Shared<Param>,
    name: Bytes,
    referred: Result<Referred, Stop>,
) -> Result<Act, Stop>
    ensures { (sub : Sub) (r : Reference) (at : State) → Sees scene.now at → name_in r ≡ name → Refers referred r (index sub (inside sub scene.now.room)) at →
        Acts result sub (pointed_at sub (inside sub scene.now.room) mode quoted (out-Param param.now) (Some r) at) scene.now.room at }
{
    match referred {
        Ok(Referred::Found(found)) => pointed_act(scene, mode, quoted, param, found),
        Ok(Referred::Subscript(parts)) => open(
            scene,
            Parts::Subscript(parts),
            Mode::Text,
            Tildes::Nowhere,
            Use::Pointed(mode, quoted, param.share()?, name),
        ),
        Err(stopped) => Err(stopped),
    }
}

/// A parameter that points to another one, by the reference that its text is.
///
/// # Errors
/// The fault of the reference, or of the parameter's operator; `Memory`.
pub fn pointed_to(
    scene: &Scene<'_>,
    mode: Mode,
    quoted: bool,
    param: &Shared<Param>,
    reference: &Ref,
) -> Result<Act, Stop>
    ensures { (sub : Sub) (at : State) → Sees scene.now at → Acts result sub (pointed_at sub (inside sub scene.now.room) mode quoted (out-Param param.now) (Some reference.now) at) scene.now.room at }
{
    let name = name_of(scene.alloc, reference)?;
    pointed_by(scene, mode, quoted, param, name, refer(scene, reference))
}

/// A parameter that points to another one, once that is found.
///
/// # Errors
/// The fault of its operator; `Memory`.
pub fn pointed_act(
    scene: &Scene<'_>,
    mode: Mode,
    quoted: bool,
    param: &Shared<Param>,
    found: Found,
) -> Result<Act, Stop>
    ensures { (sub : Sub) (at : State) → Sees scene.now at → Acts result sub (pointed_found sub (inside sub scene.now.room) mode quoted (out-Param param.now) (found_of found) at) scene.now.room at }
{
    match param.get() {
        Param::Indirect(reference, op) => {
            value_of(scene, mode, quoted, reference, op.as_ref(), found)
        }
        _ => Ok(Act::Give(Given::new(scene.alloc))),
    }
}
