ghost use Rattle.std.specs.Prelude.{◌≡◌, ◌∷◌, [], drop, IfNone, IfSome};
ghost use Rattle.shell_state.specs.State.{State};
ghost use Rattle.word_meaning.specs.Tilde.{home as home_in};
ghost use Rattle.expand_parts.specs.Acts.{Acts, Sees};
ghost use Rattle.expand_parts.specs.Nexts.{IsAfter, Nexts};
ghost use Rattle.expand_parts.specs.Rest.{Sub};
ghost use Rattle.expand_parts.specs.declared.level.Parts.TheVariants as of;

use crate::leaves::{arith, group_part, operand, piece, quoted, slice, subscript};
use crate::level::{Act, Level, Parts};
use crate::scene::Scene;
use eb_syntax::{AP, GroupPart, PW, Piece, QPiece, SW, SubPart};
use expand_marks::Given;
use expand_tildes::{is_home, is_home_in_operand, may_follow, sign_of_operand, sign_of_piece};
use expand_values::home;
use shell_state::Stop;
use word_meaning::{Mode, Tildes};

/// The next part of a level, once it is taken.
#[derive(Drop)]
pub struct Next {
    /// What it comes to.
    pub act: Act,
    /// Whether the part behind it, if it is a tilde, may stand for HOME.
    pub may_be_home: bool,
}

// The items of a list from a place on.
fn items_from<T>(items: &[T], at: usize) -> &[T]
    ensures { result.now ≡ drop at items.now }
{
    match items.get(at..) {
        Some(rest) => rest,
        None => &[],
    }
}

// The first item of a list, and those behind it.
fn split_first<T>(items: &[T]) -> Option<(&T, &[T])>
    ensures some { IfSome result (λ split. items.now ≡ split.0.now ∷ split.1.now) }
    ensures none { IfNone result (items.now ≡ []) }
{
    match items {
        [first, behind @ ..] => Some((first, behind)),
        [] => None,
    }
}

// The item at a place of a list, and those behind it.
fn item_at<T>(items: &[T], at: usize) -> Option<(&T, &[T])>
    ensures some { IfSome result (λ split. drop at items.now ≡ split.0.now ∷ split.1.now) }
    ensures none { IfNone result (drop at items.now ≡ []) }
{
    split_first(items_from(items, at))
}

// HOME in the place of a part.
fn home_act(scene: &Scene<'_>) -> Result<Act, Stop>
    ensures { (sub : Sub) (at : State) → Sees scene.now at → Acts result sub (home_in at) scene.now.room at }
{
    Ok(Act::Give(Given::of_quoted(scene.alloc, home(scene.vars))?))
}

// A part of a level, or nothing, where it has none.
fn after(act: Result<Act, Stop>, may_be_home: bool) -> Result<Option<Next>, Stop>
    ensures { IsAfter result act may_be_home }
{
    match act {
        Ok(act) => Ok(Some(Next { act, may_be_home })),
        Err(stopped) => Err(stopped),
    }
}

// The next piece of a word.
#[tactic(auto, using(crate::proofs::Taken::piece_is_home, crate::proofs::Taken::piece_is_none, crate::proofs::Taken::no_piece))]
fn next_piece(scene: &Scene<'_>, level: &Level, pieces: &[Piece]) -> Result<Option<Next>, Stop>
    ensures { Nexts result scene.now level.now (of.Pieces pieces.now) }
{
    let Some((found, behind)) = item_at(pieces, level.at) else {
        return Ok(None);
    };
    let may = may_follow(level.tildes, level.may_be_home, sign_of_piece(found));
    if is_home(level.tildes, level.may_be_home, found, behind) {
        return after(home_act(scene), may);
    }
    after(piece(scene, level.mode, found), may)
}

// The next part of the word of an operator.
#[tactic(auto, using(crate::proofs::Taken::operand_is_home, crate::proofs::Taken::operand_is_none, crate::proofs::Taken::no_operand))]
fn next_operand(scene: &Scene<'_>, level: &Level, parts: &[PW]) -> Result<Option<Next>, Stop>
    ensures { Nexts result scene.now level.now (of.Operand parts.now) }
{
    let Some((found, behind)) = item_at(parts, level.at) else {
        return Ok(None);
    };
    let may = may_follow(level.tildes, level.may_be_home, sign_of_operand(found));
    if is_home_in_operand(level.tildes, level.may_be_home, found, behind) {
        return after(home_act(scene), may);
    }
    after(operand(scene, level.mode, found), may)
}

// The next part of double quotes or of a here-document.
#[tactic(auto, using(crate::proofs::Taken::quoted_taken, crate::proofs::Taken::no_quoted))]
fn next_quoted(scene: &Scene<'_>, level: &Level, parts: &[QPiece]) -> Result<Option<Next>, Stop>
    ensures { Nexts result scene.now level.now (of.Quoted parts.now) }
{
    match item_at(parts, level.at) {
        Some((found, _)) => after(quoted(scene, level.mode, found), level.may_be_home),
        None => Ok(None),
    }
}

// The next part of the offset or the length of a slice.
#[tactic(auto, using(crate::proofs::Taken::slice_taken, crate::proofs::Taken::no_slice))]
fn next_slice(scene: &Scene<'_>, level: &Level, parts: &[SW]) -> Result<Option<Next>, Stop>
    ensures { Nexts result scene.now level.now (of.Slice parts.now) }
{
    match item_at(parts, level.at) {
        Some((found, _)) => after(slice(scene, found), level.may_be_home),
        None => Ok(None),
    }
}

// The next part of an arithmetic text.
#[tactic(auto, using(crate::proofs::Taken::arith_taken, crate::proofs::Taken::no_arith))]
fn next_arith(scene: &Scene<'_>, level: &Level, parts: &[AP]) -> Result<Option<Next>, Stop>
    ensures { Nexts result scene.now level.now (of.Arith parts.now) }
{
    match item_at(parts, level.at) {
        Some((found, _)) => after(arith(scene, found), level.may_be_home),
        None => Ok(None),
    }
}

// The next part of a subscript.
#[tactic(auto, using(crate::proofs::Taken::subscript_taken, crate::proofs::Taken::no_subscript))]
fn next_subscript(scene: &Scene<'_>, level: &Level, parts: &[SubPart]) -> Result<Option<Next>, Stop>
    ensures { Nexts result scene.now level.now (of.Subscript parts.now) }
{
    match item_at(parts, level.at) {
        Some((found, _)) => after(subscript(scene, found), level.may_be_home),
        None => Ok(None),
    }
}

// The next part of an extended group.
#[tactic(auto, using(crate::proofs::Taken::group_taken, crate::proofs::Taken::no_group))]
fn next_group(scene: &Scene<'_>, level: &Level, parts: &[GroupPart]) -> Result<Option<Next>, Stop>
    ensures { Nexts result scene.now level.now (of.Group parts.now) }
{
    match item_at(parts, level.at) {
        Some((found, _)) => after(group_part(scene, level.mode, found), level.may_be_home),
        None => Ok(None),
    }
}

/// The next part of a level; none, where all are taken.
///
/// # Errors
/// The fault of the part; `Memory`.
pub fn take_next(scene: &Scene<'_>, level: &Level) -> Result<Option<Next>, Stop>
    ensures { Nexts result scene.now level.now level.now.parts }
{
    match &level.parts {
        Parts::Pieces(parts) => next_piece(scene, level, parts.get().as_slice()),
        Parts::Quoted(parts) => next_quoted(scene, level, parts.get().as_slice()),
        Parts::Operand(parts) => next_operand(scene, level, parts.get().as_slice()),
        Parts::Slice(parts) => next_slice(scene, level, parts.get().as_slice()),
        Parts::Arith(parts) => next_arith(scene, level, parts.get().as_slice()),
        Parts::Subscript(parts) => next_subscript(scene, level, parts.get().as_slice()),
        Parts::Group(parts) => next_group(scene, level, parts.get().as_slice()),
    }
}
