ghost use Rattle.std.specs.Prelude.{◌≡◌, IfOk};
ghost use Rattle.shell_state.specs.State.{State};
ghost use Rattle.eb_syntax.specs.declared.tree.AP.TheOpen.{AP-F, SubPart-F};
ghost use Rattle.eb_syntax.specs.declared.tree.AP.{out-AP};
ghost use Rattle.eb_syntax.specs.declared.tree.PW.{out-PW};
ghost use Rattle.eb_syntax.specs.declared.tree.Piece.{out-Piece};
ghost use Rattle.eb_syntax.specs.declared.tree.QPiece.{out-QPiece};
ghost use Rattle.eb_syntax.specs.declared.tree.SW.{out-SW};
ghost use Rattle.eb_syntax.specs.declared.tree.SubPart.{out-SubPart};
ghost use Rattle.word_meaning.specs.Words.{after_backslash as after_backslash_of, ansi as ansi_of, arith_at, blank_part, byte as byte_of, double as double_of, group_at, inside, operand_at, piece_at, plain_part, quoted_at, quoted_byte as quoted_byte_of, slice_at, subscript_at};
ghost use Rattle.expand_marks.specs.Seen.{given_of};
ghost use Rattle.expand_parts.specs.Acts.{Acts, Sees};
ghost use Rattle.expand_parts.specs.Deeds.{grouped};
ghost use Rattle.expand_parts.specs.Rest.{Sub};

use crate::dollars::dollar;
use crate::level::{Act, Parts, Use};
use crate::scene::{Scene, open, unsupported};
use eb_bytes::Memory;
use eb_grammar::{AnsiErr, ansi_value};
use eb_syntax::{AP, Blank, GroupPart, PW, Piece, Plain, QPiece, SW, SubPart};
use expand_marks::Given;
use shared::Shared;
use shell_marks::Mark;
use shell_state::Stop;
use sqlite_items::Items as List;
use std::alloc::Global;
use word_meaning::{Mode, Tildes};

// A byte of the script that is no part of quotes.
fn byte(alloc: Global, byte: u8) -> Result<Given, Memory>
    ensures { IfOk result (λ g. given_of g ≡ byte_of byte) }
{
    Given::of_mark(alloc, Mark::Literal(byte))
}

// A byte that is quoted.
fn quoted_byte(alloc: Global, byte: u8) -> Result<Given, Memory>
    ensures { IfOk result (λ g. given_of g ≡ quoted_byte_of byte) }
{
    Given::of_mark(alloc, Mark::Quoted(byte))
}

// A byte that is no part of quotes, or a dollar that begins nothing.
fn plain(alloc: Global, part: Plain) -> Result<Given, Memory>
    ensures { IfOk result (λ g. given_of g ≡ plain_part part) }
{
    match part {
        Plain::Byte(found) => byte(alloc, found),
        Plain::Lone => byte(alloc, b'$'),
    }
}

// A blank in a group or a subscript.
fn blank(alloc: Global, blank: Blank) -> Result<Given, Memory>
    ensures { IfOk result (λ g. given_of g ≡ blank_part blank) }
{
    match blank {
        Blank::Space => byte(alloc, b' '),
        Blank::Tab => byte(alloc, b'\t'),
        Blank::Continuation => Ok(Given::new(alloc)),
    }
}

// A byte after a backslash in an arithmetic text.
fn after_backslash(alloc: Global, escaped: u8) -> Result<Given, Memory>
    ensures { IfOk result (λ g. given_of g ≡ after_backslash_of escaped) }
{
    match escaped {
        b'$' | b'`' | b'"' | b'\\' => byte(alloc, escaped),
        b'\n' => Ok(Given::new(alloc)),
        _ => Given::of_bytes(alloc, &[b'\\', escaped]),
    }
}

// `$'..'`
#[tactic(auto, using(crate::proofs::Refused::quoting_refused, crate::proofs::Refused::quoting_known))]
fn ansi(scene: &Scene<'_>, text: &[u8]) -> Result<Act, Stop>
    ensures { (sub : Sub) (at : State) → Acts result sub (ansi_of text.now at) scene.now.room at }
{
    match ansi_value(scene.alloc, text) {
        Ok(value) => Ok(Act::Give(Given::of_quoted(scene.alloc, value.as_slice())?)),
        Err(AnsiErr::Quoting) => Err(unsupported(scene.alloc, b"quoting")),
        Err(AnsiErr::Memory) => Err(Stop::Memory),
    }
}

// Double quotes.
#[tactic(auto, using(crate::proofs::Opened::quotes_open))]
fn double(scene: &Scene<'_>, mode: Mode, parts: &Shared<List<QPiece>>) -> Result<Act, Stop>
    ensures { (sub : Sub) (at : State) → Acts result sub (double_of sub (inside sub scene.now.room) mode parts.now at) scene.now.room at }
{
    open(
        scene,
        Parts::Quoted(parts.share()?),
        mode,
        Tildes::Nowhere,
        Use::Quotes,
    )
}

// An extended group.
#[tactic(auto, using(crate::proofs::Opened::group_opens))]
fn group(
    scene: &Scene<'_>,
    mode: Mode,
    byte: u8,
    parts: &Shared<List<GroupPart>>,
) -> Result<Act, Stop>
    ensures { (sub : Sub) (at : State) → Acts result sub (grouped (inside sub scene.now.room) mode byte parts.now at) scene.now.room at }
{
    open(
        scene,
        Parts::Group(parts.share()?),
        mode,
        Tildes::Nowhere,
        Use::Group(byte),
    )
}

/// What a part of a word comes to.
#[tactic(auto, using(crate::proofs::Refused::refused))]
pub(crate) fn piece(scene: &Scene<'_>, mode: Mode, piece: &Piece) -> Result<Act, Stop>
    ensures { (sub : Sub) (at : State) → Sees scene.now at → Acts result sub (piece_at sub (inside sub scene.now.room) mode (out-Piece piece.now) at) scene.now.room at }
{
    let alloc = scene.alloc;
    match piece {
        Piece::Continuation => Ok(Act::Give(Given::new(alloc))),
        Piece::Escaped(found) => Ok(Act::Give(quoted_byte(alloc, *found)?)),
        Piece::Single(text) => Ok(Act::Give(Given::of_quoted(alloc, text.get().as_slice())?)),
        Piece::Ansi(text) => ansi(scene, text.get().as_slice()),
        Piece::Double(_, parts) => double(scene, mode, parts),
        Piece::Dollar(found) => dollar(scene, mode, false, found),
        Piece::Back(items) => Ok(Act::Run(false, items.share()?)),
        Piece::Process(_, _) => Err(unsupported(alloc, b"process substitution")),
        Piece::Group(found, parts) => group(scene, mode, *found, parts),
        Piece::Plain(part) => Ok(Act::Give(plain(alloc, *part)?)),
    }
}

/// What a part of double quotes or of a here-document comes to.
pub(crate) fn quoted(scene: &Scene<'_>, mode: Mode, part: &QPiece) -> Result<Act, Stop>
    ensures { (sub : Sub) (at : State) → Sees scene.now at → Acts result sub (quoted_at sub (inside sub scene.now.room) mode (out-QPiece part.now) at) scene.now.room at }
{
    let alloc = scene.alloc;
    match part {
        QPiece::Continuation => Ok(Act::Give(Given::new(alloc))),
        QPiece::Escaped(found) => Ok(Act::Give(quoted_byte(alloc, *found)?)),
        QPiece::Dollar(found) => dollar(scene, mode, true, found),
        QPiece::Back(items) => Ok(Act::Run(true, items.share()?)),
        QPiece::Lone => Ok(Act::Give(quoted_byte(alloc, b'$')?)),
        QPiece::Byte(found) => Ok(Act::Give(quoted_byte(alloc, *found)?)),
    }
}

/// What a part of the word of an operator comes to.
pub(crate) fn operand(scene: &Scene<'_>, mode: Mode, part: &PW) -> Result<Act, Stop>
    ensures { (sub : Sub) (at : State) → Sees scene.now at → Acts result sub (operand_at sub (inside sub scene.now.room) mode (out-PW part.now) at) scene.now.room at }
{
    match part {
        PW::Piece(found) => piece(scene, mode, found),
        PW::Byte(found) => Ok(Act::Give(byte(scene.alloc, *found)?)),
        PW::Double(parts) => double(scene, mode, parts),
        PW::Quoted(found) => quoted(scene, mode, found),
    }
}

/// What a part of the offset or the length of a slice comes to.
pub(crate) fn slice(scene: &Scene<'_>, part: &SW) -> Result<Act, Stop>
    ensures { (sub : Sub) (at : State) → Sees scene.now at → Acts result sub (slice_at sub (inside sub scene.now.room) (out-SW part.now) at) scene.now.room at }
{
    let alloc = scene.alloc;
    match part {
        SW::Dollar(found) => dollar(scene, Mode::Text, true, found),
        SW::Back(items) => Ok(Act::Run(true, items.share()?)),
        SW::Double(parts) => double(scene, Mode::Text, parts),
        SW::Lone => Ok(Act::Give(byte(alloc, b'$')?)),
        SW::Escaped(found) => Ok(Act::Give(after_backslash(alloc, *found)?)),
        SW::Byte(found) => Ok(Act::Give(byte(alloc, *found)?)),
    }
}

// Parentheses in an arithmetic text.
#[tactic(auto, using(crate::proofs::Opened::parenthesis_opens))]
fn parenthesis(scene: &Scene<'_>, parts: &Shared<List<AP>>) -> Result<Act, Stop>
    ensures { (sub : Sub) (at : State) → Acts result sub (arith_at sub (inside sub scene.now.room) (AP-F.AP::Group parts.now) at) scene.now.room at }
{
    open(
        scene,
        Parts::Arith(parts.share()?),
        Mode::Text,
        Tildes::Nowhere,
        Use::Parenthesis,
    )
}

/// What a part of an arithmetic text comes to.
pub(crate) fn arith(scene: &Scene<'_>, part: &AP) -> Result<Act, Stop>
    ensures { (sub : Sub) (at : State) → Sees scene.now at → Acts result sub (arith_at sub (inside sub scene.now.room) (out-AP part.now) at) scene.now.room at }
{
    let alloc = scene.alloc;
    match part {
        AP::Group(parts) => parenthesis(scene, parts),
        AP::Dollar(found) => dollar(scene, Mode::Text, true, found),
        AP::Back(items) => Ok(Act::Run(true, items.share()?)),
        AP::Lone => Ok(Act::Give(byte(alloc, b'$')?)),
        AP::Escaped(found) => Ok(Act::Give(after_backslash(alloc, *found)?)),
        AP::Byte(found) => Ok(Act::Give(byte(alloc, *found)?)),
    }
}

// Brackets in a subscript.
#[tactic(auto, using(crate::proofs::Opened::bracket_opens))]
fn bracket(scene: &Scene<'_>, parts: &Shared<List<SubPart>>) -> Result<Act, Stop>
    ensures { (sub : Sub) (at : State) → Acts result sub (subscript_at sub (inside sub scene.now.room) (SubPart-F.Sub parts.now) at) scene.now.room at }
{
    open(
        scene,
        Parts::Subscript(parts.share()?),
        Mode::Text,
        Tildes::Nowhere,
        Use::Bracket,
    )
}

/// What a part of a subscript comes to.
pub(crate) fn subscript(scene: &Scene<'_>, part: &SubPart) -> Result<Act, Stop>
    ensures { (sub : Sub) (at : State) → Sees scene.now at → Acts result sub (subscript_at sub (inside sub scene.now.room) (out-SubPart part.now) at) scene.now.room at }
{
    match part {
        SubPart::Sub(parts) => bracket(scene, parts),
        SubPart::Blank(found) => Ok(Act::Give(blank(scene.alloc, *found)?)),
        SubPart::Piece(found) => piece(scene, Mode::Text, found),
    }
}

/// What a part of an extended group comes to.
pub(crate) fn group_part(scene: &Scene<'_>, mode: Mode, part: &GroupPart) -> Result<Act, Stop>
    ensures { (sub : Sub) (at : State) → Sees scene.now at → Acts result sub (group_at sub (inside sub scene.now.room) mode part.now at) scene.now.room at }
{
    match part {
        GroupPart::Piece(found) => piece(scene, mode, found),
        GroupPart::Blank(found) => Ok(Act::Give(blank(scene.alloc, *found)?)),
        GroupPart::Bar => Ok(Act::Give(byte(scene.alloc, b'|')?)),
    }
}
