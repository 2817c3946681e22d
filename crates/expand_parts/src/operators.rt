ghost use Rattle.std.specs.Prelude.{◌≡◌, IfOk};
ghost use Rattle.std.specs.Option.{option_copied};
ghost use Rattle.shell_state.specs.State.{State};
ghost use Rattle.eb_syntax.specs.declared.tree.Op.{out-Op};
ghost use Rattle.word_meaning.specs.Operators.{Assign, Default, Fail, Other, deed as deed_in, lacks as lacks_in};
ghost use Rattle.eb_syntax.specs.declared.tree.AP.TheOpen.{Op-F};
ghost use Rattle.word_meaning.specs.Words.{inside, op_at, operand_value, operated as operated_in, value_at};
ghost use Rattle.expand_values.specs.Seen.{found_of, place_of};
ghost use Rattle.expand_parts.specs.Acts.{Acts, Sees};
ghost use Rattle.expand_parts.specs.Deeds.{assigns_at, deed_of, fails_at, is_written as is_written_in};
ghost use Rattle.expand_parts.specs.Rest.{Sub};

use crate::dollars::shown_act;
use crate::level::{Act, Parts, Target, Use};
use crate::scene::{Scene, open, unsupported};
use eb_bytes::{Bytes, Memory};
use eb_syntax::{CaseOp, Op, PW, ReplaceOp, SW, StripOp, ValueOp};
use expand_operators::{lacks, no_other};
use expand_values::{Found, Place};
use shared::Shared;
use shell_state::{Fault, Stop};
use sqlite_items::Items as List;
use word_meaning::{Mode, Tildes};

/// What an operator of values does: `-`, `=`, `?`, `+`.
#[derive(Clone, Copy)]
pub(crate) enum Deed {
    Default,
    Assign,
    Fail,
    Other,
}

// What an operator does.
fn deed_by(op: ValueOp) -> Deed
    ensures { deed_of result ≡ deed_in op }
{
    match op {
        ValueOp::DefaultOfEmpty | ValueOp::Default => Deed::Default,
        ValueOp::AssignOfEmpty | ValueOp::Assign => Deed::Assign,
        ValueOp::ErrorOfEmpty | ValueOp::Error => Deed::Fail,
        ValueOp::OtherOfFilled | ValueOp::Other => Deed::Other,
    }
}

/// What is found, with an operator or without one.
pub(crate) fn operated(
    scene: &Scene<'_>,
    to: Target,
    op: Option<&Op>,
    found: Found,
) -> Result<Act, Stop>
    ensures { (sub : Sub) (at : State) → Sees scene.now at →
        Acts result sub (operated_in sub (inside sub scene.now.room) to.mode to.quoted to.name (option_copied op.entry) (found_of found) at) scene.now.room at }
{
    match op {
        None => shown_act(scene, to.mode, to.quoted, &found),
        Some(op) => op_act(scene, to, op, found),
    }
}

// What an operator comes to.
#[tactic(auto, using(crate::proofs::Refused::refused))]
fn op_act(scene: &Scene<'_>, to: Target, op: &Op, found: Found) -> Result<Act, Stop>
    ensures { (sub : Sub) (at : State) → Sees scene.now at →
        Acts result sub (op_at sub (inside sub scene.now.room) to.mode to.quoted to.name (found_of found) (out-Op op.now) at) scene.now.room at }
{
    match op {
        Op::Value(by, word) => value_act(scene, to, *by, word, found),
        Op::Strip(by, word) => strip_act(scene, to, *by, word, found),
        Op::Replace(by, word, other) => replace_act(scene, to, *by, word, other.as_ref(), found),
        Op::Case(by, word) => case_act(scene, to, *by, word, found),
        Op::Transform(_) => Err(unsupported(scene.alloc, b"transformation")),
        Op::Slice(offset, length) => slice_act(scene, to, offset, length.as_ref(), found),
    }
}

// `#`, `##`, `%` and `%%`
#[tactic(auto, using(crate::proofs::OpenedMore::strip_opens))]
fn strip_act(
    scene: &Scene<'_>,
    to: Target,
    op: StripOp,
    word: &Shared<List<PW>>,
    found: Found,
) -> Result<Act, Stop>
    ensures { (sub : Sub) (at : State) → Acts result sub (op_at sub (inside sub scene.now.room) to.mode to.quoted to.name (found_of found) (Op-F.Strip op word.now) at) scene.now.room at }
{
    open(
        scene,
        Parts::Operand(word.share()?),
        Mode::Text,
        Tildes::AtStart,
        Use::Strip(to, op, found),
    )
}

// The words that are there.
fn share_word(word: Option<&Shared<List<PW>>>) -> Result<Option<Shared<List<PW>>>, Memory>
    ensures { IfOk result (λ shared. shared ≡ option_copied word.entry) }
{
    match word {
        Some(word) => Ok(Some(word.share()?)),
        None => Ok(None),
    }
}

// The same of the length of a slice.
fn share_length(length: Option<&Shared<List<SW>>>) -> Result<Option<Shared<List<SW>>>, Memory>
    ensures { IfOk result (λ shared. shared ≡ option_copied length.entry) }
{
    match length {
        Some(length) => Ok(Some(length.share()?)),
        None => Ok(None),
    }
}

// `/`, `//`, `/#` and `/%`
#[tactic(auto, using(crate::proofs::OpenedMore::pattern_opens))]
fn replace_act(
    scene: &Scene<'_>,
    to: Target,
    op: ReplaceOp,
    word: &Shared<List<PW>>,
    other: Option<&Shared<List<PW>>>,
    found: Found,
) -> Result<Act, Stop>
    ensures { (sub : Sub) (at : State) → Acts result sub (op_at sub (inside sub scene.now.room) to.mode to.quoted to.name (found_of found) (Op-F.Replace op word.now (option_copied other.entry)) at) scene.now.room at }
{
    let other = share_word(other)?;
    open(
        scene,
        Parts::Operand(word.share()?),
        Mode::Text,
        Tildes::AtStart,
        Use::Pattern(to, op, other, found),
    )
}

// `^`, `^^`, `,` and `,,`
#[tactic(auto, using(crate::proofs::OpenedMore::case_opens))]
fn case_act(
    scene: &Scene<'_>,
    to: Target,
    op: CaseOp,
    word: &Shared<List<PW>>,
    found: Found,
) -> Result<Act, Stop>
    ensures { (sub : Sub) (at : State) → Acts result sub (op_at sub (inside sub scene.now.room) to.mode to.quoted to.name (found_of found) (Op-F.Op::Case op word.now) at) scene.now.room at }
{
    let written = is_written(word.get().as_slice());
    open(
        scene,
        Parts::Operand(word.share()?),
        Mode::Text,
        Tildes::Nowhere,
        Use::Case(to, op, written, found),
    )
}

// Whether a pattern is written.
fn is_written(word: &[PW]) -> bool
    ensures { result ≡ is_written_in word.now }
{
    match word {
        [] => false,
        [_, ..] => true,
    }
}

// A substring or a slice.
#[tactic(auto, using(crate::proofs::OpenedMore::slice_opens))]
fn slice_act(
    scene: &Scene<'_>,
    to: Target,
    offset: &Shared<List<SW>>,
    length: Option<&Shared<List<SW>>>,
    found: Found,
) -> Result<Act, Stop>
    ensures { (sub : Sub) (at : State) → Acts result sub (op_at sub (inside sub scene.now.room) to.mode to.quoted to.name (found_of found) (Op-F.Slice offset.now (option_copied length.entry)) at) scene.now.room at }
{
    let length = share_length(length)?;
    open(
        scene,
        Parts::Slice(offset.share()?),
        Mode::Text,
        Tildes::Nowhere,
        Use::Offset(to, length, found),
    )
}

// `-`, `=`, `?` and `+`
fn value_act(
    scene: &Scene<'_>,
    to: Target,
    op: ValueOp,
    word: &Shared<List<PW>>,
    found: Found,
) -> Result<Act, Stop>
    ensures { (sub : Sub) (at : State) → Sees scene.now at →
        Acts result sub (value_at sub (inside sub scene.now.room) to.mode to.quoted (lacks_in op (found_of found)) to.name (found_of found) (deed_in op) word.now at) scene.now.room at }
{
    let lacking = lacks(scene.alloc, op, &found)?;
    match deed_by(op) {
        Deed::Default => default_act(scene, &to, lacking, word, &found),
        Deed::Assign => assign_act(scene, to, lacking, word, found),
        Deed::Fail => fail_act(scene, to, lacking, word, &found),
        Deed::Other => other_act(scene, &to, lacking, word, &found),
    }
}

// The word that stands for a value.
#[tactic(auto, using(crate::proofs::OpenedMore::value_opens))]
fn value_open(scene: &Scene<'_>, mode: Mode, word: &Shared<List<PW>>) -> Result<Act, Stop>
    ensures { (sub : Sub) (at : State) → Acts result sub (operand_value sub (inside sub scene.now.room) mode word.now at) scene.now.room at }
{
    open(
        scene,
        Parts::Operand(word.share()?),
        mode,
        Tildes::AtStart,
        Use::Value,
    )
}

// `-`
fn default_act(
    scene: &Scene<'_>,
    to: &Target,
    lacking: bool,
    word: &Shared<List<PW>>,
    found: &Found,
) -> Result<Act, Stop>
    ensures { (sub : Sub) (at : State) → Sees scene.now at →
        Acts result sub (value_at sub (inside sub scene.now.room) to.now.mode to.now.quoted lacking to.now.name (found_of found.now) Default word.now at) scene.now.room at }
{
    if lacking {
        return value_open(scene, to.mode, word);
    }
    shown_act(scene, to.mode, to.quoted, found)
}

// `=` to a place.
#[tactic(auto, using(crate::proofs::OpenedMore::assign_opens))]
fn assign_open(
    scene: &Scene<'_>,
    quoted: bool,
    word: &Shared<List<PW>>,
    place: Place,
) -> Result<Act, Stop>
    ensures { (sub : Sub) (at : State) → Acts result sub (assigns_at sub (inside sub scene.now.room) quoted (place_of place) word.now at) scene.now.room at }
{
    open(
        scene,
        Parts::Operand(word.share()?),
        Mode::Text,
        Tildes::AtStart,
        Use::Assign(quoted, place),
    )
}

// `=`
fn assign_act(
    scene: &Scene<'_>,
    to: Target,
    lacking: bool,
    word: &Shared<List<PW>>,
    found: Found,
) -> Result<Act, Stop>
    ensures { (sub : Sub) (at : State) → Sees scene.now at →
        Acts result sub (value_at sub (inside sub scene.now.room) to.mode to.quoted lacking to.name (found_of found) Assign word.now at) scene.now.room at }
{
    match found {
        Found::One(text, place) => assign_one(scene, to, lacking, word, text, place),
        Found::Many(_, _) => Err(Stop::Fault(Fault::BadSubstitution(to.name))),
    }
}

// `=` on one value.
fn assign_one(
    scene: &Scene<'_>,
    to: Target,
    lacking: bool,
    word: &Shared<List<PW>>,
    text: Option<Bytes>,
    place: Option<Place>,
) -> Result<Act, Stop>
    ensures { (sub : Sub) (at : State) → Sees scene.now at →
        Acts result sub (value_at sub (inside sub scene.now.room) to.mode to.quoted lacking to.name (found_of (Found.One text place)) Assign word.now at) scene.now.room at }
{
    let Some(place) = place else {
        return Err(Stop::Fault(Fault::BadSubstitution(to.name)));
    };
    if lacking {
        return assign_open(scene, to.quoted, word, place);
    }
    shown_act(scene, to.mode, to.quoted, &Found::One(text, Some(place)))
}

// The message of `?`.
#[tactic(auto, using(crate::proofs::OpenedMore::fail_opens))]
fn fail_open(scene: &Scene<'_>, name: Bytes, word: &Shared<List<PW>>) -> Result<Act, Stop>
    ensures { (sub : Sub) (at : State) → Acts result sub (fails_at sub (inside sub scene.now.room) name word.now at) scene.now.room at }
{
    open(
        scene,
        Parts::Operand(word.share()?),
        Mode::Text,
        Tildes::AtStart,
        Use::Fail(name),
    )
}

// `?`
fn fail_act(
    scene: &Scene<'_>,
    to: Target,
    lacking: bool,
    word: &Shared<List<PW>>,
    found: &Found,
) -> Result<Act, Stop>
    ensures { (sub : Sub) (at : State) → Sees scene.now at →
        Acts result sub (value_at sub (inside sub scene.now.room) to.mode to.quoted lacking to.name (found_of found.now) Fail word.now at) scene.now.room at }
{
    if lacking {
        return fail_open(scene, to.name, word);
    }
    shown_act(scene, to.mode, to.quoted, found)
}

// `+`
fn other_act(
    scene: &Scene<'_>,
    to: &Target,
    lacking: bool,
    word: &Shared<List<PW>>,
    found: &Found,
) -> Result<Act, Stop>
    ensures { (sub : Sub) (at : State) → Sees scene.now at →
        Acts result sub (value_at sub (inside sub scene.now.room) to.now.mode to.now.quoted lacking to.now.name (found_of found.now) Other word.now at) scene.now.room at }
{
    if lacking {
        return Ok(Act::Give(no_other(scene.alloc, to.quoted, found)));
    }
    value_open(scene, to.mode, word)
}
