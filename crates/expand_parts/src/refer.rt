ghost use Rattle.std.specs.Prelude.{◌≡◌, ℤ, Some, None};
ghost use Rattle.std.specs.Option.{option_copied};
ghost use Rattle.shell_state.specs.Outcome.{Doing};
ghost use Rattle.shell_state.specs.State.{State};
ghost use Rattle.eb_syntax.specs.Tree.{Sub as Subscript};
ghost use Rattle.eb_syntax.specs.declared.parts.RefOf.TheVariants as ref;
ghost use Rattle.expand_parts.specs.Acts.{Sees};
ghost use Rattle.expand_parts.specs.Params.{IsFoundBy, Refers};

use crate::references::star_of;
use crate::scene::Scene;
use eb_syntax::{Ref, SubPart};
use expand_values::{Found, array, positional, special, variable};
use shared::Shared;
use shell_state::Stop;
use sqlite_items::Items as List;

/// What a reference is: what it finds, or a subscript that is evaluated first.
#[derive(Drop)]
pub(crate) enum Referred {
    /// It finds this.
    Found(Found),
    /// The subscript comes first.
    Subscript(Shared<List<SubPart>>),
}

// What is found, or what stopped the search.
fn found_by(found: Result<Found, Stop>) -> Result<Referred, Stop>
    ensures { IsFoundBy result found }
{
    match found {
        Ok(found) => Ok(Referred::Found(found)),
        Err(stopped) => Err(stopped),
    }
}

// What a name with a subscript is.
#[tactic(auto, using(crate::proofs::Refers::array_found, crate::proofs::Refers::subscript_first))]
fn subscripted(
    scene: &Scene<'_>,
    name: &[u8],
    parts: &Shared<List<SubPart>>,
) -> Result<Referred, Stop>
    ensures { (index : Subscript → Doing ℤ) (at : State) → Sees scene.now at → Refers result (ref.Name name.now (Some parts.now)) index at }
{
    match star_of(parts.get().as_slice()) {
        Some(star) => found_by(array(scene.alloc, scene.vars, name, star)),
        None => Ok(Referred::Subscript(parts.share()?)),
    }
}

// What a name without a subscript is.
fn plain(scene: &Scene<'_>, name: &[u8]) -> Result<Referred, Stop>
    ensures { (index : Subscript → Doing ℤ) (at : State) → Sees scene.now at → Refers result (ref.Name name.now None) index at }
{
    found_by(variable(scene.alloc, scene.vars, name))
}

// What a name is.
fn named(
    scene: &Scene<'_>,
    name: &[u8],
    parts: Option<&Shared<List<SubPart>>>,
) -> Result<Referred, Stop>
    ensures { (index : Subscript → Doing ℤ) (at : State) → Sees scene.now at → Refers result (ref.Name name.now (option_copied parts.entry)) index at }
{
    match parts {
        Some(parts) => subscripted(scene, name, parts),
        None => plain(scene, name),
    }
}

// What a number is.
fn numbered(scene: &Scene<'_>, digits: &[u8]) -> Result<Referred, Stop>
    ensures { (index : Subscript → Doing ℤ) (at : State) → Sees scene.now at → Refers result (ref.Digits digits.now) index at }
{
    found_by(positional(scene.alloc, scene.args, digits))
}

// What a special parameter is.
fn special_one(scene: &Scene<'_>, byte: u8) -> Result<Referred, Stop>
    ensures { (index : Subscript → Doing ℤ) (at : State) → Sees scene.now at → Refers result (ref.Special byte) index at }
{
    found_by(special(scene.alloc, scene.args, scene.status, byte))
}

/// What a reference is.
pub(crate) fn refer(scene: &Scene<'_>, reference: &Ref) -> Result<Referred, Stop>
    ensures { (index : Subscript → Doing ℤ) (at : State) → Sees scene.now at → Refers result reference.now index at }
{
    match reference {
        Ref::Name(name, parts) => named(scene, name.as_slice(), parts.as_ref()),
        Ref::Digits(digits) => numbered(scene, digits.as_slice()),
        Ref::Special(byte) => special_one(scene, *byte),
    }
}
