//! Lists of commands, with the bodies of their own here-documents.

ghost use Rattle.std.specs.Prelude.{◌≡◌, map, IfOk};
ghost use Rattle.eb_grammar.specs.Fill as fill;

use crate::bodies::Bodies;
use crate::draft::{AndOrDraft, Draft, ItemDraft, JoinedDraft, PipeDraft, PipedDraft};
use crate::lists::{reversed, with_room};
use eb_bytes::Memory;
use eb_syntax::{
    AndOr, AndOrOf, Command, HereBody, Item, ItemOf, Joined, JoinedOf, Pipe, PipeOf, Piped, PipedOf,
};
use shared::Shared;
use sqlite_items::{Boxed, Items as List};
use std::alloc::Global;

// A command, held so that it can be shared.
fn filled_command(
    alloc: Global,
    draft: Boxed<Draft>,
    bodies: &Bodies<'_>,
) -> Result<Shared<Command>, Memory>
    ensures { IfOk result (λ filled. filled ≡ fill.filled_command bodies.now draft) }
{
    let draft = draft.into_inner();
    Ok(Shared::new(alloc, draft.filled(alloc, bodies)?)?)
}

fn filled_piped(alloc: Global, piped: PipedDraft, bodies: &Bodies<'_>) -> Result<Piped, Memory>
    ensures { IfOk result (λ filled. filled ≡ fill.filled_piped bodies.now piped) }
{
    let PipedOf { bar, command } = piped;
    let command = filled_command(alloc, command, bodies)?;
    Ok(PipedOf { bar, command })
}

#[tactic(auto, using(crate::proofs::Reversed::mapped_start, crate::proofs::Reversed::mapped_turn, crate::proofs::Reversed::mapped_end))]
fn each_piped(
    alloc: Global,
    others: List<PipedDraft>,
    bodies: &Bodies<'_>,
) -> Result<List<Piped>, Memory>
    ensures { IfOk result (λ filled. filled ≡ map (fill.filled_piped bodies.now) others) }
{
    let mut rest = others;
    let mut found = with_room(alloc, rest.len())?;
    while let Some(piped) = rest.pop() {
        found.push(filled_piped(alloc, piped, bodies)?)?;
    }
    reversed(alloc, found)
}

fn filled_pipe(alloc: Global, pipe: PipeDraft, bodies: &Bodies<'_>) -> Result<Pipe, Memory>
    ensures { IfOk result (λ filled. filled ≡ fill.filled_pipe bodies.now pipe) }
{
    let PipeOf {
        marks,
        first,
        others,
    } = pipe;
    let first = filled_command(alloc, first, bodies)?;
    let others = each_piped(alloc, others, bodies)?;
    Ok(PipeOf {
        marks,
        first,
        others,
    })
}

fn filled_joined(alloc: Global, joined: JoinedDraft, bodies: &Bodies<'_>) -> Result<Joined, Memory>
    ensures { IfOk result (λ filled. filled ≡ fill.filled_joined bodies.now joined) }
{
    let JoinedOf { junction, pipe } = joined;
    let pipe = filled_pipe(alloc, pipe, bodies)?;
    Ok(JoinedOf { junction, pipe })
}

#[tactic(auto, using(crate::proofs::Reversed::mapped_start, crate::proofs::Reversed::mapped_turn, crate::proofs::Reversed::mapped_end))]
fn each_joined(
    alloc: Global,
    others: List<JoinedDraft>,
    bodies: &Bodies<'_>,
) -> Result<List<Joined>, Memory>
    ensures { IfOk result (λ filled. filled ≡ map (fill.filled_joined bodies.now) others) }
{
    let mut rest = others;
    let mut found = with_room(alloc, rest.len())?;
    while let Some(joined) = rest.pop() {
        found.push(filled_joined(alloc, joined, bodies)?)?;
    }
    reversed(alloc, found)
}

fn filled_list(alloc: Global, list: AndOrDraft, bodies: &Bodies<'_>) -> Result<AndOr, Memory>
    ensures { IfOk result (λ filled. filled ≡ fill.filled_list bodies.now list) }
{
    let AndOrOf { first, others } = list;
    let first = filled_pipe(alloc, first, bodies)?;
    let others = each_joined(alloc, others, bodies)?;
    Ok(AndOrOf { first, others })
}

#[tactic(auto, unfolding(eb_grammar::specs::Fill::filled_item))]
fn filled_item(alloc: Global, item: ItemDraft, bodies: &Bodies<'_>) -> Result<Item, Memory>
    ensures { IfOk result (λ filled. filled ≡ fill.filled_item bodies.now item) }
{
    let ItemOf { list, end } = item;
    let list = filled_list(alloc, list, bodies)?;
    Ok(ItemOf { list, end })
}

// The items of a list, with the bodies of its here-documents.
#[tactic(auto, using(crate::proofs::Reversed::mapped_start, crate::proofs::Reversed::mapped_turn, crate::proofs::Reversed::mapped_end))]
fn each_item(
    alloc: Global,
    items: List<ItemDraft>,
    bodies: &Bodies<'_>,
) -> Result<List<Item>, Memory>
    ensures { IfOk result (λ filled. filled ≡ map (fill.filled_item bodies.now) items) }
{
    let mut rest = items;
    let mut found = with_room(alloc, rest.len())?;
    while let Some(item) = rest.pop() {
        found.push(filled_item(alloc, item, bodies)?)?;
    }
    reversed(alloc, found)
}

/// The items of a list of commands, with the bodies that were read for it (Bash Reference Manual, "Here Documents").
///
/// # Errors
/// `Memory` where there is no room for them.
pub fn filled_items(
    alloc: Global,
    items: List<ItemDraft>,
    bodies: &[Shared<HereBody>],
) -> Result<List<Item>, Memory>
    ensures { IfOk result (λ filled. filled ≡ map (fill.filled_item bodies.now) items) }
{
    each_item(alloc, items, &Bodies::new(bodies))
}
