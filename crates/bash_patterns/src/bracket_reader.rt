ghost use Rattle.std.specs.Prelude.{◌≡◌, ◌≤◌, ◌∷◌, ◌&&◌, drop, false, length, slice_index_or, true, IfOk, IfSome};
ghost use Rattle.std.specs.Option.{option_map};
ghost use Rattle.bash_patterns.specs.Bracketed.{as_bracket, bracket_at, closes, inside, is_open, is_opening, member_at, members_from, negates, open_ends, range_end, range_or_byte};
ghost use Rattle.bash_patterns.specs.Seen.{seen_closed, seen_read};

use crate::bracket::{Bracket, Member, Members};
use crate::class::Class;
use crate::places::value_at;
use crate::symbol::{Role, Symbol, split_symbol};
use eb_bytes::Memory;
use std::alloc::Global;

// A member of a bracket expression, and what stands after it.
#[derive(Clone, Copy)]
struct MemberRead<'s> {
    member: Member,
    rest: &'s [Symbol],
}

// The members up to the closing bracket, and what stands after it.
#[derive(Drop)]
pub struct MembersRead<'s> {
    pub members: Members,
    pub rest: &'s [Symbol],
}

/// A bracket expression, and what stands after it.
#[derive(Drop)]
pub struct BracketRead<'s> {
    pub bracket: Bracket,
    pub rest: &'s [Symbol],
}

// What stands after so many symbols.
fn after(symbols: &[Symbol], count: usize) -> &[Symbol]
    ensures { result.now ≡ drop count symbols.now }
{
    &symbols[count.min(symbols.len())..]
}

// The last byte of the range whose first byte stands before these symbols, if it is one.
fn range_end(symbols: &[Symbol]) -> Option<u8>
    ensures { result ≡ range_end symbols.now }
{
    match symbols {
        [Symbol::Unquoted(b'-'), last, ..] => match last.role() {
            Role::BracketClosing => None,
            _ => Some(last.byte()),
        },
        _ => None,
    }
}

fn range_or_byte(symbol: Symbol, behind: &[Symbol]) -> MemberRead<'_>
    ensures member { result.member ≡ (range_or_byte symbol (range_end behind.now)).member }
    ensures rest { result.rest.now ≡ drop (range_or_byte symbol (range_end behind.now)).more behind.now }
{
    let first = symbol.byte();
    match range_end(behind) {
        Some(last) => MemberRead {
            member: Member::Range(first, last),
            rest: after(behind, 2),
        },
        None => MemberRead {
            member: Member::Range(first, first),
            rest: behind,
        },
    }
}

// The member that begins with this symbol.
#[tactic(auto, unfolding(crate::specs::Bracketed::member_at))]
fn member_at(symbol: Symbol, behind: &[Symbol]) -> MemberRead<'_>
    ensures member { result.member ≡ (member_at symbol behind.now).member }
    ensures rest { result.rest.now ≡ drop (member_at symbol behind.now).more behind.now }
{
    match symbol.role() {
        Role::BracketOpening => match Class::at(behind) {
            Some(class) => MemberRead {
                member: Member::Class(class),
                rest: after(behind, class.len()),
            },
            None => range_or_byte(symbol, behind),
        },
        _ => range_or_byte(symbol, behind),
    }
}

// Whether it is a closing bracket that does not stand first.
fn closes(is_first: bool, role: Role) -> bool
    ensures { result ≡ closes is_first role }
{
    match role {
        Role::BracketClosing => !is_first,
        _ => false,
    }
}

// The members up to the closing bracket, if there is one. A closing bracket that stands first is a member.
fn members_of(alloc: Global, symbols: &[Symbol]) -> Result<Option<MembersRead<'_>>, Memory>
    ensures { IfOk result (λ read. option_map seen_closed read ≡ members_from true 0 symbols.now) }
{
    let mut members = Members::new(alloc);
    let mut rest = symbols;
    let mut is_first = true;
    while let Some((symbol, behind)) = split_symbol(rest) {
        if closes(is_first, symbol.role()) {
            return Ok(Some(MembersRead {
                members,
                rest: behind,
            }));
        }
        let read = member_at(symbol, behind);
        members.push(read.member)?;
        rest = read.rest;
        is_first = false;
    }
    Ok(None)
}

fn negates(symbols: &[Symbol]) -> bool
    ensures { result ≡ negates symbols.now }
{
    matches!(symbols, [Symbol::Unquoted(b'!' | b'^'), ..])
}

/// The bracket expression whose opening bracket stands before these symbols, if it closes.
///
/// # Errors
/// `Memory` where there is no room for its members.
#[tactic(auto, unfolding(crate::specs::Bracketed::bracket_at))]
pub fn read_bracket(alloc: Global, symbols: &[Symbol]) -> Result<Option<BracketRead<'_>>, Memory>
    ensures read { IfOk result (λ read. option_map seen_read read ≡ bracket_at symbols.now) }
    ensures rest { IfOk result (λ found. IfSome found (λ read. length read.rest.now ≤ length symbols.now)) }
{
    match symbols {
        [] => Ok(None),
        [_, behind @ ..] => {
            let negated = negates(symbols);
            let inside = if negated { behind } else { symbols };
            bracket_of(alloc, negated, inside)
        }
    }
}

fn bracket_of(
    alloc: Global,
    negated: bool,
    symbols: &[Symbol],
) -> Result<Option<BracketRead<'_>>, Memory>
    ensures read { IfOk result (λ read. option_map seen_read read ≡ as_bracket negated (members_from true 0 symbols.now)) }
    ensures rest { IfOk result (λ found. IfSome found (λ read. length read.rest.now ≤ length symbols.now)) }
{
    match members_of(alloc, symbols)? {
        None => Ok(None),
        Some(read) => Ok(Some(BracketRead {
            bracket: Bracket {
                negated,
                members: read.members,
            },
            rest: read.rest,
        })),
    }
}

/// Of each end of these symbols, the shortest first, whether no bracket closes whose members go on there.
///
/// # Errors
/// `Memory` where there is no room for the answers.
pub fn open_ends(alloc: Global, symbols: &[Symbol]) -> Result<Vec<bool>, Memory>
    ensures { IfOk result (λ ends. ends.items ≡ open_ends symbols.now) }
{
    let mut ends = Vec::new(alloc);
    ends.push(true)?;
    for count in 0..symbols.len() {
        let place = symbols.len() - 1 - count;
        let stays = stays_open(symbols[place], &symbols[place + 1..], ends.as_slice());
        ends.push(stays)?;
    }
    Ok(ends)
}

// The same of the end that begins with this symbol, where `ends` says it of the ends of the symbols after it.
fn stays_open(symbol: Symbol, behind: &[Symbol], ends: &[bool]) -> bool
    requires { ends.now ≡ open_ends behind.now }
    ensures { result ≡ is_open (symbol ∷ behind.now) }
{
    if closes(false, symbol.role()) {
        return false;
    }
    let read = member_at(symbol, behind);
    value_at(ends, read.rest.len())
}

// What the members of a bracket begin with that stands before these symbols.
fn inside(symbols: &[Symbol]) -> &[Symbol]
    ensures { result.now ≡ inside symbols.now }
{
    if negates(symbols) {
        after(symbols, 1)
    } else {
        symbols
    }
}

/// Whether this is an opening bracket that never closes, since no bracket closes whose members go on where its own
/// begin: `ends` says it of each end.
pub fn is_lone(symbol: Symbol, behind: &[Symbol], ends: &[bool]) -> bool
    ensures { result ≡ (is_opening symbol && slice_index_or ends.now (length (inside behind.now)) false) }
{
    matches!(symbol, Symbol::Unquoted(b'[')) && value_at(ends, inside(behind).len())
}
