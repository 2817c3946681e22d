//! The bodies of here-documents, put into redirections and into what holds them.

ghost use Rattle.std.specs.Prelude.{◌≡◌, map, IfOk};
ghost use Rattle.std.specs.Option.{unwrap_or};
ghost use Rattle.eb_grammar.specs.Fill as fill;

use crate::bodies::Bodies;
use crate::lists::{reversed, with_room};
use eb_bytes::{Bytes, Memory};
use eb_syntax::{Argument, Decl, Prefix, Redir, Simple, Tail, TailPart};
use sqlite_items::Items as List;
use std::alloc::Global;

// A here-document with the body of its mark. `None` of any other redirection, in which no body is put.
#[tactic(auto, unfolding(eb_grammar::specs::Fill::filled_redir))]
fn filled_document(
    alloc: Global,
    redir: &Redir,
    bodies: &Bodies<'_>,
) -> Result<Option<Redir>, Memory>
    ensures { IfOk result (λ filled. unwrap_or filled redir.now ≡ fill.filled_redir bodies.now redir.now) }
{
    match redir {
        Redir::Here(digits, which, word, mark, _) => {
            let digits = Bytes::from_slice(alloc, digits.as_slice())?;
            let word = word.share()?;
            let body = bodies.of(*mark)?;
            Ok(Some(Redir::Here(digits, *which, word, *mark, body)))
        }
        _ => Ok(None),
    }
}

// A redirection, which holds the body of its mark if it is a here-document.
fn filled_redir(alloc: Global, redir: Redir, bodies: &Bodies<'_>) -> Result<Redir, Memory>
    ensures { IfOk result (λ filled. filled ≡ fill.filled_redir bodies.now redir) }
{
    match filled_document(alloc, &redir, bodies)? {
        Some(filled) => Ok(filled),
        None => Ok(redir),
    }
}

/// Redirections, each here-document with the body of its mark.
///
/// # Errors
/// `Memory` where there is no room for them.
#[tactic(auto, using(crate::proofs::Reversed::mapped_start, crate::proofs::Reversed::mapped_turn, crate::proofs::Reversed::mapped_end))]
pub fn filled_redirs(
    alloc: Global,
    redirs: List<Redir>,
    bodies: &Bodies<'_>,
) -> Result<List<Redir>, Memory>
    ensures { IfOk result (λ filled. filled ≡ map (fill.filled_redir bodies.now) redirs) }
{
    let mut rest = redirs;
    let mut found = with_room(alloc, rest.len())?;
    while let Some(redir) = rest.pop() {
        found.push(filled_redir(alloc, redir, bodies)?)?;
    }
    reversed(alloc, found)
}

// What stands before a command's name.
#[tactic(auto, unfolding(eb_grammar::specs::Fill::filled_prefix))]
fn filled_prefix(alloc: Global, prefix: Prefix, bodies: &Bodies<'_>) -> Result<Prefix, Memory>
    ensures { IfOk result (λ filled. filled ≡ fill.filled_prefix bodies.now prefix) }
{
    match prefix {
        Prefix::Redir(redir) => Ok(Prefix::Redir(filled_redir(alloc, redir, bodies)?)),
        Prefix::Assign(assign) => Ok(Prefix::Assign(assign)),
    }
}

#[tactic(auto, using(crate::proofs::Reversed::mapped_start, crate::proofs::Reversed::mapped_turn, crate::proofs::Reversed::mapped_end))]
fn filled_prefixes(
    alloc: Global,
    prefixes: List<Prefix>,
    bodies: &Bodies<'_>,
) -> Result<List<Prefix>, Memory>
    ensures { IfOk result (λ filled. filled ≡ map (fill.filled_prefix bodies.now) prefixes) }
{
    let mut rest = prefixes;
    let mut found = with_room(alloc, rest.len())?;
    while let Some(prefix) = rest.pop() {
        found.push(filled_prefix(alloc, prefix, bodies)?)?;
    }
    reversed(alloc, found)
}

// What stands after the name of a declaration.
#[tactic(auto, unfolding(eb_grammar::specs::Fill::filled_argument))]
fn filled_argument(
    alloc: Global,
    argument: Argument,
    bodies: &Bodies<'_>,
) -> Result<Argument, Memory>
    ensures { IfOk result (λ filled. filled ≡ fill.filled_argument bodies.now argument) }
{
    match argument {
        Argument::Redir(redir) => Ok(Argument::Redir(filled_redir(alloc, redir, bodies)?)),
        Argument::Assign(assign) => Ok(Argument::Assign(assign)),
        Argument::Word(word) => Ok(Argument::Word(word)),
    }
}

#[tactic(auto, using(crate::proofs::Reversed::mapped_start, crate::proofs::Reversed::mapped_turn, crate::proofs::Reversed::mapped_end))]
fn filled_arguments(
    alloc: Global,
    arguments: List<Argument>,
    bodies: &Bodies<'_>,
) -> Result<List<Argument>, Memory>
    ensures { IfOk result (λ filled. filled ≡ map (fill.filled_argument bodies.now) arguments) }
{
    let mut rest = arguments;
    let mut found = with_room(alloc, rest.len())?;
    while let Some(argument) = rest.pop() {
        found.push(filled_argument(alloc, argument, bodies)?)?;
    }
    reversed(alloc, found)
}

// What stands after a command's name.
#[tactic(auto, unfolding(eb_grammar::specs::Fill::filled_part))]
fn filled_part(alloc: Global, part: TailPart, bodies: &Bodies<'_>) -> Result<TailPart, Memory>
    ensures { IfOk result (λ filled. filled ≡ fill.filled_part bodies.now part) }
{
    match part {
        TailPart::Redir(redir) => Ok(TailPart::Redir(filled_redir(alloc, redir, bodies)?)),
        TailPart::Word(word) => Ok(TailPart::Word(word)),
    }
}

#[tactic(auto, using(crate::proofs::Reversed::mapped_start, crate::proofs::Reversed::mapped_turn, crate::proofs::Reversed::mapped_end))]
fn filled_parts(
    alloc: Global,
    parts: List<TailPart>,
    bodies: &Bodies<'_>,
) -> Result<List<TailPart>, Memory>
    ensures { IfOk result (λ filled. filled ≡ map (fill.filled_part bodies.now) parts) }
{
    let mut rest = parts;
    let mut found = with_room(alloc, rest.len())?;
    while let Some(part) = rest.pop() {
        found.push(filled_part(alloc, part, bodies)?)?;
    }
    reversed(alloc, found)
}

#[tactic(auto, unfolding(eb_grammar::specs::Fill::filled_tail))]
fn filled_tail(alloc: Global, tail: Tail, bodies: &Bodies<'_>) -> Result<Tail, Memory>
    ensures { IfOk result (λ filled. filled ≡ fill.filled_tail bodies.now tail) }
{
    let Tail { first, others } = tail;
    let others = filled_parts(alloc, others, bodies)?;
    Ok(Tail { first, others })
}

/// A simple command, with the bodies of its here-documents.
///
/// # Errors
/// `Memory` where there is no room for it.
#[tactic(auto, unfolding(eb_grammar::specs::Fill::filled_simple))]
pub fn filled_simple(alloc: Global, simple: Simple, bodies: &Bodies<'_>) -> Result<Simple, Memory>
    ensures { IfOk result (λ filled. filled ≡ fill.filled_simple bodies.now simple) }
{
    let Simple { before, tail } = simple;
    let before = filled_prefixes(alloc, before, bodies)?;
    match tail {
        Some(tail) => {
            let tail = filled_tail(alloc, tail, bodies)?;
            Ok(Simple {
                before,
                tail: Some(tail),
            })
        }
        None => Ok(Simple { before, tail: None }),
    }
}

/// A declaration, with the bodies of its here-documents.
///
/// # Errors
/// `Memory` where there is no room for it.
#[tactic(auto, unfolding(eb_grammar::specs::Fill::filled_decl))]
pub fn filled_decl(alloc: Global, declaration: Decl, bodies: &Bodies<'_>) -> Result<Decl, Memory>
    ensures { IfOk result (λ filled. filled ≡ fill.filled_decl bodies.now declaration) }
{
    let Decl {
        before,
        name,
        arguments,
    } = declaration;
    let before = filled_prefixes(alloc, before, bodies)?;
    let arguments = filled_arguments(alloc, arguments, bodies)?;
    Ok(Decl {
        before,
        name,
        arguments,
    })
}
