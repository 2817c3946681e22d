//! The trees: the types that lead back to themselves. What a word is made of is held by `Shared`, so that a part of a
//! tree is handed on without a copy of what stands in it.

ghost use Rattle.std.specs.Prelude.{◌≡◌, IfOk};
ghost use Rattle.eb_syntax.specs.Tree.{word_of_pieces};

use crate::parts::{
    AndOf, AndOrOf, AssignedOf, BinOp, Blank, BothOp, CaseOp, ClauseEnd, CoprocOf, DeclName,
    ElifOf, FileOp, FuncDefOf, GroupPartOf, HereOp, HereTextOf, ItemOf, JoinedOf, Name, OrOf,
    PipeOf, PipedOf, Plain, Process, RInOf, RefOf, ReplaceOp, StripOp, Unary, ValueOp, WordOp,
};
use eb_bytes::{Bytes, Memory};
use shared::Shared;
use sqlite_items::{Boxed, Items as List};
use std::alloc::Global;

/// The rule Script.
pub type Script = Items;

/// The rule Body, with its Item as the first of the items.
pub type Body = Items;

/// The rule Do.
pub type Do = Body;

/// The rule Back, read as a script.
pub type Back = Script;

/// The rule Item.
pub type Item = ItemOf<AndOr>;

/// The rule AndOr.
pub type AndOr = AndOrOf<Pipe>;

/// A Pipe after `&&` or `||`.
pub type Joined = JoinedOf<Pipe>;

/// The rule Pipe.
pub type Pipe = PipeOf<Shared<Command>>;

/// A Command after a bar.
pub type Piped = PipedOf<Shared<Command>>;

/// A further test of an `if`, with what is run where it holds.
pub type Elif = ElifOf<Body>;

/// The rule FuncDef.
pub type FuncDef = FuncDefOf<Shared<Command>>;

/// The rule Coproc.
pub type Coproc = CoprocOf<Shared<Command>>;

/// The rule And.
pub type And = AndOf<Not>;

/// The rule Or.
pub type Or = OrOf<Not>;

/// The rule Prim.
pub type Prim = Primary;

/// The rule CWord.
pub type CWord = Word;

/// The rule Regex.
pub type Regex = List<RegexPart>;

/// The rule RIn.
pub type RIn = RInOf<Regex>;

/// What is assigned: the words of an array, or a text.
pub type Assigned = AssignedOf<Word>;

/// What is read for a here-document.
pub type HereText = HereTextOf<QPiece>;

/// The rule DQ.
pub type DQ = Shared<List<QPiece>>;

/// A part of an extended group.
pub type GroupPart = GroupPartOf<Piece>;

/// The rule Sub.
pub type Sub = Shared<List<SubPart>>;

/// The rule Ref.
pub type Ref = RefOf<Sub>;

/// The text of an arithmetic expression, with what is expanded in it.
pub type ArithText = Shared<List<AP>>;

/// The rule Arith.
pub type Arith = ArithText;

/// The rule ArithS.
pub type ArithS = ArithText;

/// A here-document's body, and the number of the mark that it belongs to.
#[derive(Drop)]
pub struct HereBody {
    pub mark: u32,
    pub text: Shared<HereText>,
}

/// The rule Items.
#[cycle(tree)]
pub struct Items {
    pub items: Shared<List<ItemOf<AndOrOf<PipeOf<Shared<Command>>>>>>,
}

/// The rule Command.
#[cycle(tree)]
pub enum Command {
    /// The Compound, and its Redirs.
    Compound(Compound, List<Redir>),
    FuncDef(FuncDefOf<Shared<Command>>),
    Coproc(CoprocOf<Shared<Command>>),
    Decl(Decl),
    Simple(Simple),
}

/// The rule Compound.
#[cycle(tree)]
#[derive(Drop)]
pub enum Compound {
    /// `{ .. }`
    Group(Items),
    /// `(( .. ))`
    Arith(Shared<List<AP>>),
    /// `( .. )`
    Subshell(Items),
    /// The test, what is run where it holds, the further tests, and what is run where none holds.
    If(Items, Items, List<ElifOf<Items>>, Option<Items>),
    While(Items, Items),
    Until(Items, Items),
    /// `for (( .. ; .. ; .. ))`
    ForArith(Shared<List<AP>>, Shared<List<AP>>, Shared<List<AP>>, Items),
    /// The words after `in`, where it stands there.
    For(Name, Option<List<Word>>, Items),
    Select(Name, Option<List<Word>>, Items),
    Case(Word, List<Clause>),
    /// `[[ .. ]]`
    Test(OrOf<Not>),
}

/// The rule Clause.
#[cycle(tree)]
#[derive(Drop)]
pub struct Clause {
    pub first: Word,
    pub others: List<Word>,
    pub items: Items,
    pub end: ClauseEnd,
}

/// The rule Not.
#[cycle(tree)]
#[derive(Drop)]
pub enum Not {
    Not(Boxed<Not>),
    Prim(Primary),
}

/// The rule Prim.
#[cycle(tree)]
#[derive(Drop)]
pub enum Primary {
    Group(Boxed<OrOf<Not>>),
    Unary(Unary, Word),
    Word(Word),
    /// `=~`
    Matches(Word, List<RegexPart>),
    Binary(Word, BinOp, Word),
}

/// A part of a Regex.
#[cycle(tree)]
#[derive(Drop)]
pub enum RegexPart {
    Piece(Piece),
    /// `|`
    Bar,
    /// `( .. )`
    Group(List<RInOf<List<RegexPart>>>),
}

/// The rule Decl.
#[cycle(tree)]
#[derive(Drop)]
pub struct Decl {
    pub before: List<Prefix>,
    pub name: DeclName,
    pub arguments: List<Argument>,
}

/// What stands before a command's name.
#[cycle(tree)]
#[derive(Drop)]
pub enum Prefix {
    Assign(Assign),
    Redir(Redir),
}

/// What stands after a DeclName.
#[cycle(tree)]
#[derive(Drop)]
pub enum Argument {
    Redir(Redir),
    Assign(Assign),
    Word(Word),
}

/// The rule Simple.
#[cycle(tree)]
#[derive(Drop)]
pub struct Simple {
    pub before: List<Prefix>,
    pub tail: Option<Tail>,
}

/// The rule Tail.
#[cycle(tree)]
#[derive(Drop)]
pub struct Tail {
    pub first: Word,
    pub others: List<TailPart>,
}

/// What stands after a command's name.
#[cycle(tree)]
#[derive(Drop)]
pub enum TailPart {
    Redir(Redir),
    Word(Word),
}

/// The rule Redir. The digits before an operator are empty where none stand there.
#[cycle(tree)]
pub enum Redir {
    Word(Bytes, WordOp, Word),
    /// A here-document: also its mark's number, which is the place in the text at which the word begins, and its body,
    /// which is there once the Items that the mark stands in are read.
    Here(Bytes, HereOp, Word, u32, Option<Shared<HereTextOf<QPiece>>>),
    File(Bytes, FileOp, Word),
    Both(BothOp, Word),
}

/// The rule Assign.
#[cycle(tree)]
pub struct Assign {
    pub name: Name,
    pub sub: Option<Shared<List<SubPart>>>,
    /// Whether `+` stands before the `=`.
    pub append: bool,
    pub value: AssignedOf<Word>,
}

/// A part of a Sub.
#[cycle(tree)]
pub enum SubPart {
    Sub(Shared<List<SubPart>>),
    Blank(Blank),
    Piece(Piece),
}

/// The rule Word.
#[cycle(tree)]
pub struct Word {
    pub pieces: Shared<List<Piece>>,
}

/// The rule Piece.
#[cycle(tree)]
pub enum Piece {
    /// A backslash and a newline, which stand for nothing.
    Continuation,
    /// A byte after a backslash.
    Escaped(u8),
    /// `'..'`
    Single(Shared<Bytes>),
    /// `$'..'`, the bytes as they are written.
    Ansi(Shared<Bytes>),
    /// `".."`, or `$".."` where the first is true.
    Double(bool, Shared<List<QPiece>>),
    Dollar(Dollar),
    Back(Items),
    Process(Process, Items),
    /// An extended group, with the byte before its parenthesis.
    Group(u8, Shared<List<GroupPartOf<Piece>>>),
    Plain(Plain),
}

/// The rule QPiece.
#[cycle(tree)]
pub enum QPiece {
    /// A backslash and a newline, which stand for nothing.
    Continuation,
    /// A byte after a backslash.
    Escaped(u8),
    Dollar(Dollar),
    Back(Items),
    /// A dollar that begins nothing.
    Lone,
    Byte(u8),
}

/// The rule Dollar.
#[cycle(tree)]
pub enum Dollar {
    /// `$(( .. ))`
    Arith(Shared<List<AP>>),
    /// `$( .. )`
    Command(Items),
    /// `${ .. }`
    Param(Shared<Param>),
    Name(Shared<Name>),
    Digit(u8),
    Special(u8),
}

/// The rule Param.
#[cycle(tree)]
pub enum Param {
    /// `${#..}`
    Length(RefOf<Shared<List<SubPart>>>),
    /// `${!..@}`: the names that begin so, with `@` or `*`.
    Names(RefOf<Shared<List<SubPart>>>, u8),
    /// `${!..}`
    Indirect(RefOf<Shared<List<SubPart>>>, Option<Op>),
    /// `${..}`
    Value(RefOf<Shared<List<SubPart>>>, Option<Op>),
}

/// The rule Op.
#[cycle(tree)]
pub enum Op {
    Value(ValueOp, Shared<List<PW>>),
    Strip(StripOp, Shared<List<PW>>),
    /// The pattern, and what stands after the second slash, where there is one.
    Replace(ReplaceOp, Shared<List<PW>>, Option<Shared<List<PW>>>),
    Case(CaseOp, Shared<List<PW>>),
    /// `@` and this letter
    Transform(u8),
    /// The offset, and the length, where it is given.
    Slice(Shared<List<SW>>, Option<Shared<List<SW>>>),
}

/// The rule PW: `Piece` and `Byte` outside double quotes and here-documents, `Double` and `Quoted` inside.
#[cycle(tree)]
pub enum PW {
    Piece(Piece),
    Byte(u8),
    Double(Shared<List<QPiece>>),
    Quoted(QPiece),
}

/// The rule SW.
#[cycle(tree)]
pub enum SW {
    Dollar(Dollar),
    Back(Items),
    Double(Shared<List<QPiece>>),
    /// A dollar that begins nothing.
    Lone,
    /// A byte after a backslash.
    Escaped(u8),
    Byte(u8),
}

/// The rule AP.
#[cycle(tree)]
pub enum AP {
    /// `( .. )`
    Group(Shared<List<AP>>),
    Dollar(Dollar),
    Back(Items),
    /// A dollar that begins nothing.
    Lone,
    /// A byte after a backslash.
    Escaped(u8),
    Byte(u8),
}

impl Word {
    /// The word of these pieces.
    ///
    /// # Errors
    /// `Memory` where there is no room for it; the pieces are dropped then.
    #[tactic(auto, unfolding(crate::specs::Tree::word_of_pieces))]
    pub fn of(alloc: Global, pieces: List<Piece>) -> Result<Word, Memory>
        ensures { IfOk result (λ word. word ≡ word_of_pieces pieces) }
    {
        Ok(Word {
            pieces: Shared::new(alloc, pieces)?,
        })
    }

    /// The same word. Nothing is copied.
    ///
    /// # Errors
    /// `Memory` where the word's owners cannot be counted any more.
    pub fn share(&self) -> Result<Word, Memory>
        ensures { IfOk result (λ word. word ≡ self.now) }
    {
        Ok(Word {
            pieces: self.pieces.share()?,
        })
    }
}

impl Items {
    /// The same items. Nothing is copied.
    ///
    /// # Errors
    /// `Memory` where the items' owners cannot be counted any more.
    pub fn share(&self) -> Result<Items, Memory>
        ensures { IfOk result (λ items. items ≡ self.now) }
    {
        Ok(Items {
            items: self.items.share()?,
        })
    }
}

impl Piece {
    /// The same piece. Nothing is copied.
    ///
    /// # Errors
    /// `Memory` where the owners of what stands in it cannot be counted any more.
    pub fn share(&self) -> Result<Piece, Memory>
        ensures { IfOk result (λ piece. piece ≡ self.now) }
    {
        Ok(match self {
            Piece::Continuation => Piece::Continuation,
            Piece::Escaped(byte) => Piece::Escaped(*byte),
            Piece::Single(text) => Piece::Single(text.share()?),
            Piece::Ansi(text) => Piece::Ansi(text.share()?),
            Piece::Double(translated, pieces) => Piece::Double(*translated, pieces.share()?),
            Piece::Dollar(dollar) => Piece::Dollar(dollar.share()?),
            Piece::Back(script) => Piece::Back(script.share()?),
            Piece::Process(which, body) => Piece::Process(*which, body.share()?),
            Piece::Group(kind, parts) => Piece::Group(*kind, parts.share()?),
            Piece::Plain(plain) => Piece::Plain(*plain),
        })
    }
}

impl Dollar {
    /// The same Dollar. Nothing is copied.
    ///
    /// # Errors
    /// `Memory` where the owners of what stands in it cannot be counted any more.
    pub fn share(&self) -> Result<Dollar, Memory>
        ensures { IfOk result (λ dollar. dollar ≡ self.now) }
    {
        Ok(match self {
            Dollar::Arith(text) => Dollar::Arith(text.share()?),
            Dollar::Command(items) => Dollar::Command(items.share()?),
            Dollar::Param(param) => Dollar::Param(param.share()?),
            Dollar::Name(name) => Dollar::Name(name.share()?),
            Dollar::Digit(digit) => Dollar::Digit(*digit),
            Dollar::Special(byte) => Dollar::Special(*byte),
        })
    }
}

// These types have a `drop` of their own, which a crate above calls. Where they derived it, each crate above that lets a
// tree go would prove anew how a whole tree is let go.

impl Drop for Items {
    #[cycle(tree)]
    fn drop(self) {
        let Items { items } = self;
        drop(items);
    }
}

impl Drop for Command {
    #[cycle(tree)]
    fn drop(self) {
        match self {
            Command::Compound(compound, redirections) => {
                drop(compound);
                drop(redirections);
            }
            Command::FuncDef(function) => drop(function),
            Command::Coproc(coproc) => drop(coproc),
            Command::Decl(declaration) => drop(declaration),
            Command::Simple(simple) => drop(simple),
        }
    }
}

impl Drop for Redir {
    #[cycle(tree)]
    fn drop(self) {
        match self {
            Redir::Word(digits, _, word) => {
                drop(digits);
                drop(word);
            }
            Redir::Here(digits, _, word, _, body) => {
                drop(digits);
                drop(word);
                drop(body);
            }
            Redir::File(digits, _, word) => {
                drop(digits);
                drop(word);
            }
            Redir::Both(_, word) => drop(word),
        }
    }
}

impl Drop for Assign {
    #[cycle(tree)]
    fn drop(self) {
        let Assign {
            name,
            sub,
            append: _,
            value,
        } = self;
        drop(name);
        drop(sub);
        drop(value);
    }
}

impl Drop for SubPart {
    #[cycle(tree)]
    fn drop(self) {
        match self {
            SubPart::Sub(parts) => drop(parts),
            SubPart::Blank(_) => {}
            SubPart::Piece(piece) => drop(piece),
        }
    }
}

impl Drop for Word {
    #[cycle(tree)]
    fn drop(self) {
        let Word { pieces } = self;
        drop(pieces);
    }
}

impl Drop for Piece {
    #[cycle(tree)]
    fn drop(self) {
        match self {
            Piece::Continuation | Piece::Escaped(_) | Piece::Plain(_) => {}
            Piece::Single(text) | Piece::Ansi(text) => drop(text),
            Piece::Double(_, pieces) => drop(pieces),
            Piece::Dollar(dollar) => drop(dollar),
            Piece::Back(items) | Piece::Process(_, items) => drop(items),
            Piece::Group(_, parts) => drop(parts),
        }
    }
}

impl Drop for QPiece {
    #[cycle(tree)]
    fn drop(self) {
        match self {
            QPiece::Continuation | QPiece::Escaped(_) | QPiece::Lone | QPiece::Byte(_) => {}
            QPiece::Dollar(dollar) => drop(dollar),
            QPiece::Back(items) => drop(items),
        }
    }
}

impl Drop for Dollar {
    #[cycle(tree)]
    fn drop(self) {
        match self {
            Dollar::Arith(text) => drop(text),
            Dollar::Command(items) => drop(items),
            Dollar::Param(param) => drop(param),
            Dollar::Name(name) => drop(name),
            Dollar::Digit(_) | Dollar::Special(_) => {}
        }
    }
}

impl Drop for Param {
    #[cycle(tree)]
    fn drop(self) {
        match self {
            Param::Length(reference) | Param::Names(reference, _) => drop(reference),
            Param::Indirect(reference, operator) | Param::Value(reference, operator) => {
                drop(reference);
                drop(operator);
            }
        }
    }
}

impl Drop for Op {
    #[cycle(tree)]
    fn drop(self) {
        match self {
            Op::Value(_, word) | Op::Strip(_, word) | Op::Case(_, word) => drop(word),
            Op::Replace(_, pattern, text) => {
                drop(pattern);
                drop(text);
            }
            Op::Transform(_) => {}
            Op::Slice(offset, length) => {
                drop(offset);
                drop(length);
            }
        }
    }
}

impl Drop for PW {
    #[cycle(tree)]
    fn drop(self) {
        match self {
            PW::Piece(piece) => drop(piece),
            PW::Byte(_) => {}
            PW::Double(pieces) => drop(pieces),
            PW::Quoted(piece) => drop(piece),
        }
    }
}

impl Drop for SW {
    #[cycle(tree)]
    fn drop(self) {
        match self {
            SW::Dollar(dollar) => drop(dollar),
            SW::Back(items) => drop(items),
            SW::Double(pieces) => drop(pieces),
            SW::Lone | SW::Escaped(_) | SW::Byte(_) => {}
        }
    }
}

impl Drop for AP {
    #[cycle(tree)]
    fn drop(self) {
        match self {
            AP::Group(parts) => drop(parts),
            AP::Dollar(dollar) => drop(dollar),
            AP::Back(items) => drop(items),
            AP::Lone | AP::Escaped(_) | AP::Byte(_) => {}
        }
    }
}
