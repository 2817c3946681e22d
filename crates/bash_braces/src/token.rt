ghost use Rattle.std.specs.Prelude.{◌≡◌, ◌++◌, IfOk, OnOk, MatchOption, None, Some};
ghost use Rattle.std.specs.List.{flat_map};
ghost use Rattle.bash_braces.specs.Tokens.{group_of, is_continuation, opened, token_byte, tokens};
ghost use Rattle.bash_braces.specs.Pieces.{plain_byte};

use eb_bytes::Memory;
use eb_syntax::{Blank, GroupPart, GroupPartOf, Piece, Plain};
use std::alloc::Global;

// What the text of a word is made of. An extended group is what stands between its two ends.
#[derive(Drop)]
pub(crate) enum Token {
    Part(GroupPart),
    // `(` after this byte.
    GroupStart(u8),
    // `)`
    GroupEnd,
}

// How many groups in one another are opened. The grammar has no more.
const NESTED: u8 = 200;

// The unquoted byte that a part is.
pub(crate) fn plain_byte(part: &GroupPart) -> Option<u8>
    ensures { result ≡ plain_byte part.now }
{
    match part {
        GroupPartOf::Piece(Piece::Plain(Plain::Byte(byte))) => Some(*byte),
        _ => None,
    }
}

// The same part. Nothing is copied.
fn share(part: &GroupPart) -> Result<GroupPart, Memory>
    ensures { IfOk result (λ same. same ≡ part.now) }
{
    Ok(match part {
        GroupPartOf::Piece(piece) => GroupPartOf::Piece(piece.share()?),
        GroupPartOf::Blank(blank) => GroupPartOf::Blank(*blank),
        GroupPartOf::Bar => GroupPartOf::Bar,
    })
}

impl Token {
    // The unquoted byte that it is.
    pub(crate) fn plain_byte(&self) -> Option<u8>
        ensures { result ≡ token_byte self.now }
    {
        match self {
            Token::Part(part) => plain_byte(part),
            Token::GroupStart(_) | Token::GroupEnd => None,
        }
    }

    pub(crate) fn is_continuation(&self) -> bool
        ensures { result ≡ is_continuation self.now }
    {
        match self {
            Token::Part(
                GroupPartOf::Piece(Piece::Continuation) | GroupPartOf::Blank(Blank::Continuation),
            ) => true,
            _ => false,
        }
    }

    // The same token. Nothing is copied.
    pub(crate) fn share(&self) -> Result<Token, Memory>
        ensures { IfOk result (λ token. token ≡ self.now) }
    {
        Ok(match self {
            Token::Part(part) => Token::Part(share(part)?),
            Token::GroupStart(kind) => Token::GroupStart(*kind),
            Token::GroupEnd => Token::GroupEnd,
        })
    }
}

// The byte before the parenthesis of the group that a part is, and what stands in that group.
fn group(part: &GroupPart) -> Option<(u8, &[GroupPart])>
    ensures { MatchOption result (group_of part.now ≡ None) (λ g. group_of part.now ≡ Some (g.0, g.1.now)) }
{
    match part {
        GroupPartOf::Piece(Piece::Group(kind, parts)) => Some((*kind, parts.get().as_slice())),
        _ => None,
    }
}

// Puts what a part is made of after the tokens, where so many groups in one another may still be opened.
#[cycle(open)]
#[tactic(auto, using(crate::proofs::Opening::unopened))]
fn open(tokens: &mut Vec<Token>, part: &GroupPart, nested: u8) -> Result<(), Memory>
    ensures { OnOk result (tokens.new.items ≡ tokens.old.items ++ opened nested part.now) }
{
    match group(part) {
        Some((kind, parts)) if 0 < nested => {
            tokens.push(Token::GroupStart(kind))?;
            open_all(tokens, parts, nested - 1)?;
            tokens.push(Token::GroupEnd)?;
        }
        _ => tokens.push(Token::Part(share(part)?))?,
    }
    Ok(())
}

// The same of each part.
#[cycle(open)]
#[tactic(auto, using(crate::proofs::Opening::opened_next))]
fn open_all(tokens: &mut Vec<Token>, parts: &[GroupPart], nested: u8) -> Result<(), Memory>
    ensures { OnOk result (tokens.new.items ≡ tokens.old.items ++ flat_map (opened nested) parts.now) }
{
    for part in parts {
        open(tokens, part, nested)?;
    }
    Ok(())
}

// What the text of a word is made of.
pub(crate) fn tokens(alloc: Global, pieces: &[Piece]) -> Result<Vec<Token>, Memory>
    ensures { IfOk result (λ all. all.items ≡ tokens pieces.now) }
{
    let mut all = Vec::new(alloc);
    for piece in pieces {
        open(&mut all, &GroupPartOf::Piece(piece.share()?), NESTED)?;
    }
    Ok(all)
}
