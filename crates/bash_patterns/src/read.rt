ghost use Rattle.std.specs.Prelude.{◌≡◌, ◌++◌, [], ◌∷◌, map, None, IfOk, OnOk};
ghost use Rattle.bash_patterns.specs.Form.{form_of};
ghost use Rattle.bash_patterns.specs.Joining.{IsAdded, IsReadAs, groups_of, language, languages};
ghost use Rattle.bash_patterns.specs.Matching.{matches};
ghost use Rattle.bash_patterns.specs.Reading.{behind_first, first_of, grouped, kind_at, plain, reading, single};
ghost use Rattle.bash_patterns.specs.Symbols.{role_of};

use crate::bracket_reader::{is_lone, open_ends, read_bracket};
use crate::error::PatErr;
use crate::group::{GroupKind, alternatives_at, group_kind};
use crate::join::{Join, join_last};
use crate::node::Node;
use crate::symbol::{Role, Symbol, split_symbol};
use crate::test::Test;
use eb_bytes::Memory;
use std::alloc::Global;

/// The tree of these symbols, in which at most so many groups may be nested. Groups are read only where the pattern is
/// extended.
///
/// # Errors
/// `TooDeep` exactly where more groups are nested, `Memory` where there is no room for the tree.
#[cycle(read)]
pub fn read(alloc: Global, symbols: &[Symbol], extended: bool, levels: u8) -> Result<Node, PatErr>
    ensures ok { IfOk result (λ node. IsReadAs (reading levels extended symbols.now) (language node)) }
    ensures deep { result ≡ Err PatErr.TooDeep → reading levels extended symbols.now ≡ None }
{
    let ends = open_ends(alloc, symbols)?;
    let mut row = Vec::new(alloc);
    let mut rest = symbols;
    while let Some((symbol, behind)) = split_symbol(rest) {
        if is_lone(symbol, behind, ends.as_slice()) {
            push_plain(symbol, &mut row)?;
            rest = behind;
        } else {
            rest = read_first(alloc, symbol, behind, extended, levels, &mut row)?;
        }
    }
    let count = row.len();
    let node = join_last(alloc, Join::Row, &mut row, count)?;
    Ok(node)
}

// Puts at the end of a row the trees that begin with a symbol, and gives what stands after them.
#[cycle(read)]
fn read_first<'s>(
    alloc: Global,
    symbol: Symbol,
    behind: &'s [Symbol],
    extended: bool,
    levels: u8,
    row: &mut Vec<Node>,
) -> Result<&'s [Symbol], PatErr>
    ensures rest { IfOk result (λ rest. rest.now ≡ (first_of (groups_of levels extended) extended symbol behind.now).rest) }
    ensures added { OnOk result (IsAdded (first_of (groups_of levels extended) extended symbol behind.now).forms (languages row.old.items) (languages row.new.items)) }
    ensures deep { result ≡ Err PatErr.TooDeep → (first_of (groups_of levels extended) extended symbol behind.now).forms ≡ None }
{
    let Some(kind) = kind_at(extended, symbol, behind) else {
        let rest = read_single(alloc, symbol, behind, row)?;
        return Ok(rest);
    };
    let Some(parts) = alternatives_at(alloc, behind_first(behind))? else {
        push_plain(symbol, row)?;
        push_all_plain(behind, row)?;
        return Ok(&behind[behind.len()..]);
    };
    let group = read_group(alloc, kind, parts.list.as_slice(), extended, levels)?;
    push(group, row)?;
    Ok(parts.rest)
}

// The tree of a group with these alternatives.
#[cycle(read)]
fn read_group(
    alloc: Global,
    kind: GroupKind,
    list: &[&[Symbol]],
    extended: bool,
    levels: u8,
) -> Result<Node, PatErr>
    ensures ok { IfOk result (λ node. IsReadAs (groups_of levels extended kind (map (λ part. part.now) list.now)) (language node)) }
    ensures deep { result ≡ Err PatErr.TooDeep → groups_of levels extended kind (map (λ part. part.now) list.now) ≡ None }
{
    if levels == 0 {
        return Err(PatErr::TooDeep);
    }
    let mut choices = Vec::new(alloc);
    for part in list {
        let alternative = read(alloc, part, extended, levels - 1)?;
        push(alternative, &mut choices)?;
    }
    let count = choices.len();
    let choice = join_last(alloc, Join::Choice, &mut choices, count)?;
    let node = group_of(alloc, kind, choice)?;
    Ok(node)
}

fn kind_at(extended: bool, symbol: Symbol, behind: &[Symbol]) -> Option<GroupKind>
    ensures { result ≡ kind_at extended symbol behind.now }
{
    if extended {
        group_kind(symbol, behind)
    } else {
        None
    }
}

fn behind_first(symbols: &[Symbol]) -> &[Symbol]
    ensures { result.now ≡ behind_first symbols.now }
{
    match symbols {
        [_, behind @ ..] => behind,
        [] => symbols,
    }
}

#[tactic(auto, unfolding(crate::specs::Joining::language, crate::specs::Joining::languages, crate::specs::Form::form_of, crate::specs::Matching::matches))]
fn push(node: Node, row: &mut Vec<Node>) -> Result<(), Memory>
    ensures { OnOk result (languages row.new.items ≡ languages row.old.items ++ language node ∷ []) }
{
    row.push(node)?;
    Ok(())
}

#[tactic(auto, unfolding(crate::specs::Joining::language, crate::specs::Joining::languages, crate::specs::Form::form_of, crate::specs::Matching::matches))]
fn push_plain(symbol: Symbol, row: &mut Vec<Node>) -> Result<(), Memory>
    ensures { OnOk result (languages row.new.items ≡ languages row.old.items ++ matches (plain symbol) ∷ []) }
{
    push(Node::One(Test::Byte(symbol.byte())), row)?;
    Ok(())
}

fn push_all_plain(symbols: &[Symbol], row: &mut Vec<Node>) -> Result<(), Memory>
    ensures { OnOk result (languages row.new.items ≡ languages row.old.items ++ map (λ s. matches (plain s)) symbols.now) }
{
    for symbol in symbols {
        push_plain(*symbol, row)?;
    }
    Ok(())
}

// Puts at the end of a row the tree that a symbol begins which begins no group, and gives what stands after it.
#[tactic(auto, unfolding(crate::specs::Joining::language, crate::specs::Joining::languages, crate::specs::Form::form_of, crate::specs::Matching::matches))]
fn read_single<'s>(
    alloc: Global,
    symbol: Symbol,
    behind: &'s [Symbol],
    row: &mut Vec<Node>,
) -> Result<&'s [Symbol], Memory>
    ensures rest { IfOk result (λ rest. rest.now ≡ (single (role_of symbol) symbol behind.now).rest) }
    ensures added { OnOk result (IsAdded (single (role_of symbol) symbol behind.now).forms (languages row.old.items) (languages row.new.items)) }
{
    match symbol.role() {
        Role::Star => {
            push(Node::AnyText, row)?;
            Ok(behind)
        }
        Role::Question => {
            push(Node::One(Test::Any), row)?;
            Ok(behind)
        }
        Role::BracketOpening => match read_bracket(alloc, behind)? {
            Some(read) => {
                push(Node::One(Test::Bracket(read.bracket)), row)?;
                Ok(read.rest)
            }
            None => {
                push_plain(symbol, row)?;
                Ok(behind)
            }
        },
        _ => {
            push_plain(symbol, row)?;
            Ok(behind)
        }
    }
}

// The group of a kind whose alternatives are this tree.
#[tactic(auto, unfolding(crate::specs::Form::form_of))]
fn group_of(alloc: Global, kind: GroupKind, choice: Node) -> Result<Node, Memory>
    ensures { IfOk result (λ node. form_of node ≡ grouped kind (form_of choice)) }
{
    if let GroupKind::Once = kind {
        return Ok(choice);
    }
    let choice = Box::new(alloc, choice)?;
    match kind {
        GroupKind::AtMostOnce => Ok(Node::Optional(choice)),
        GroupKind::AnyTimes => Ok(Node::ZeroOrMore(choice)),
        GroupKind::OnceOrMore => Ok(Node::OneOrMore(choice)),
        GroupKind::Once | GroupKind::NoneOf => Ok(Node::NoneOf(choice)),
    }
}
