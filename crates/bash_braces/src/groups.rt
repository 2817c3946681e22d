ghost use Rattle.std.specs.Prelude.{◌≡◌, ◌++◌, map, IfOk};
ghost use Rattle.bash_braces.specs.Groups.{as_piece, blank_piece, empty, onto, pieces, pieces_in, started};
ghost use Rattle.bash_braces.specs.Pieces.{plain_piece};
ghost use Rattle.bash_braces.specs.Symbols.{token_of};

use crate::names::before;
use crate::queue::Queue;
use crate::symbol::Symbol;
use crate::token::Token;
use eb_bytes::Memory;
use eb_syntax::{Blank, GroupPart, GroupPartOf, Piece, Plain};
use shared::Shared;
use sqlite_items::Items;
use std::alloc::Global;

// A text before its first `)` that belongs to no group of it, and after each such `)` what follows it.
#[derive(Drop)]
pub(crate) struct Nest {
    here: Queue<GroupPart>,
    outer: Queue<Queue<GroupPart>>,
}

fn plain_piece(byte: u8) -> Piece
    ensures { result ≡ plain_piece byte }
{
    Piece::Plain(Plain::Byte(byte))
}

// What a blank is outside of the groups.
fn blank_piece(blank: Blank) -> Piece
    ensures { result ≡ blank_piece blank }
{
    match blank {
        Blank::Space => plain_piece(b' '),
        Blank::Tab => plain_piece(b'\t'),
        Blank::Continuation => Piece::Continuation,
    }
}

// What a part is outside of the groups.
fn as_piece(part: GroupPart) -> Piece
    ensures { result ≡ as_piece part }
{
    match part {
        GroupPartOf::Piece(piece) => piece,
        GroupPartOf::Blank(blank) => blank_piece(blank),
        GroupPartOf::Bar => plain_piece(b'|'),
    }
}

// Puts these parts before the pieces.
fn put_before(mut parts: Queue<GroupPart>, after: Queue<Piece>) -> Result<Queue<Piece>, Memory>
    ensures { IfOk result (λ all. all ≡ map as_piece parts ++ after) }
{
    let mut all = after;
    while let Some(part) = parts.take_last() {
        all.put_first(as_piece(part))?;
    }
    Ok(all)
}

impl Nest {
    fn empty(alloc: Global) -> Nest
        ensures { result ≡ empty }
    {
        Nest {
            here: Queue::new(alloc),
            outer: Queue::new(alloc),
        }
    }

    // The text with a group's start before it.
    fn start(self, alloc: Global, kind: u8) -> Result<Nest, Memory>
        ensures { IfOk result (λ nest. nest ≡ started kind self.here self.outer) }
    {
        let Nest {
            mut here,
            mut outer,
        } = self;
        match outer.take_first() {
            None => {
                here.put_first(GroupPartOf::Piece(plain_piece(b'(')))?;
                here.put_first(GroupPartOf::Piece(plain_piece(kind)))?;
                Ok(Nest { here, outer })
            }
            Some(mut next) => {
                let parts = Shared::new(alloc, Items::from_vec(here.into_vec()))?;
                next.put_first(GroupPartOf::Piece(Piece::Group(kind, parts)))?;
                Ok(Nest { here: next, outer })
            }
        }
    }

    // The text with a token before it.
    fn take(self, alloc: Global, token: Token) -> Result<Nest, Memory>
        ensures { IfOk result (λ nest. nest ≡ onto token self) }
    {
        match token {
            Token::Part(part) => {
                let Nest { here, outer } = self;
                Ok(Nest {
                    here: before(alloc, part, here)?,
                    outer,
                })
            }
            Token::GroupStart(kind) => self.start(alloc, kind),
            Token::GroupEnd => {
                let Nest { here, mut outer } = self;
                outer.put_first(here)?;
                Ok(Nest {
                    here: Queue::new(alloc),
                    outer,
                })
            }
        }
    }

    // The pieces of the whole text.
    fn finish(self, alloc: Global) -> Result<Queue<Piece>, Memory>
        ensures { IfOk result (λ all. all ≡ pieces_in self) }
    {
        let Nest { here, mut outer } = self;
        let mut all = Queue::new(alloc);
        while let Some(level) = outer.take_last() {
            all = put_before(level, all)?;
            all.put_first(plain_piece(b')'))?;
        }
        put_before(here, all)
    }
}

// The token that a symbol stands for, where `tokens` are those of the word that was read. It is shared.
fn token_of(tokens: &[Token], symbol: Symbol) -> Result<Token, Memory>
    ensures { IfOk result (λ token. token ≡ token_of tokens.now symbol) }
{
    let byte = match symbol {
        Symbol::Byte(byte) => byte,
        Symbol::At(index) => match tokens.get(index) {
            Some(token) => return token.share(),
            None => 0,
        },
    };
    Ok(Token::Part(GroupPartOf::Piece(plain_piece(byte))))
}

// The pieces of a word, with the names and the groups that it then has.
pub(crate) fn pieces(
    alloc: Global,
    tokens: &[Token],
    mut word: Queue<Symbol>,
) -> Result<Queue<Piece>, Memory>
    ensures { IfOk result (λ all. all ≡ pieces (map (token_of tokens.now) word)) }
{
    let mut nest = Nest::empty(alloc);
    while let Some(symbol) = word.take_last() {
        nest = nest.take(alloc, token_of(tokens, symbol)?)?;
    }
    nest.finish(alloc)
}
