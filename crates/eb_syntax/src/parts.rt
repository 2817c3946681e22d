//! The parts of the trees that do not lead back to themselves: operators and marks, and small shapes over one type.

use eb_bytes::Bytes;
use shared::Shared;
use sqlite_items::Items as List;

/// The rule Name.
pub type Name = Bytes;

/// The rule FName.
pub type FName = Bytes;

/// The rule Unary: its letter.
pub type Unary = u8;

/// The rule Blank.
#[derive(Clone, Copy, PartialEq, Eq)]
pub enum Blank {
    Space,
    Tab,
    /// A backslash and a newline, which stand for nothing.
    Continuation,
}

/// The rule ItemEnd.
#[derive(Clone, Copy, PartialEq, Eq)]
pub enum ItemEnd {
    Semicolon,
    /// The item is run in the background.
    Ampersand,
    /// What ends the item stands after it, and is not taken.
    Ahead,
}

/// What joins two Pipes.
#[derive(Clone, Copy, PartialEq, Eq)]
pub enum Junction {
    /// `&&`
    And,
    /// `||`
    Or,
}

/// What stands before the first Command of a Pipe.
#[derive(Clone, Copy, PartialEq, Eq)]
pub enum PipeMark {
    /// `!`
    Not,
    /// `time`
    Time,
    /// `time -p`
    TimePosix,
}

/// What joins two Commands of a Pipe.
#[derive(Clone, Copy, PartialEq, Eq)]
pub enum Bar {
    /// `|&`, standard error too
    Both,
    /// `|`
    Plain,
}

/// What ends a Clause.
#[derive(Clone, Copy, PartialEq, Eq)]
pub enum ClauseEnd {
    /// `;;&`, the patterns after it are tried too
    Continue,
    /// `;;`
    Break,
    /// `;&`, the next clause is run too
    FallThrough,
    /// `esac` stands after it
    Ahead,
}

/// The rule BinOp.
#[derive(Clone, Copy, PartialEq, Eq)]
pub enum BinOp {
    /// `==`
    DoubleEqual,
    /// `=`
    Equal,
    /// `!=`
    NotEqual,
    /// `<`, in the order of texts
    Before,
    /// `>`, in the order of texts
    After,
    /// `-eq`
    NumberEqual,
    /// `-ne`
    NumberNotEqual,
    /// `-lt`
    NumberLess,
    /// `-le`
    NumberAtMost,
    /// `-gt`
    NumberGreater,
    /// `-ge`
    NumberAtLeast,
    /// `-nt`
    NewerFile,
    /// `-ot`
    OlderFile,
    /// `-ef`
    SameFile,
}

/// The rule DeclName.
#[derive(Clone, Copy, PartialEq, Eq)]
pub enum DeclName {
    Declare,
    Typeset,
    Local,
    Export,
    Readonly,
}

/// The operator of a Redir to a here-string, another descriptor or a file.
#[derive(Clone, Copy, PartialEq, Eq)]
pub enum WordOp {
    /// `<<<`, the word itself is the input
    HereString,
    /// `<>`
    ReadWrite,
    /// `<&`
    DuplicateInput,
    /// `>>`
    Append,
    /// `>&`
    DuplicateOutput,
    /// `>|`
    Clobber,
}

/// The operator of a here-document.
#[derive(Clone, Copy, PartialEq, Eq)]
pub enum HereOp {
    /// `<<-`, tabs at the start of a line are removed
    StripTabs,
    /// `<<`
    Plain,
}

/// The operator of a Redir that only reads or only writes a file.
#[derive(Clone, Copy, PartialEq, Eq)]
pub enum FileOp {
    /// `<`
    Read,
    /// `>`
    Write,
}

/// The operator of a Redir of standard output and standard error.
#[derive(Clone, Copy, PartialEq, Eq)]
pub enum BothOp {
    /// `&>>`
    Append,
    /// `&>`
    Write,
}

/// What begins a process substitution.
#[derive(Clone, Copy, PartialEq, Eq)]
pub enum Process {
    /// `<(..)`, whose output is read
    Read,
    /// `>(..)`, whose input is written
    Write,
}

/// The operator that gives a parameter another value.
#[derive(Clone, Copy, PartialEq, Eq)]
pub enum ValueOp {
    /// `:-`, where unset or empty
    DefaultOfEmpty,
    /// `:=`, where unset or empty
    AssignOfEmpty,
    /// `:?`, where unset or empty
    ErrorOfEmpty,
    /// `:+`, where neither unset nor empty
    OtherOfFilled,
    /// `-`, where unset
    Default,
    /// `=`, where unset
    Assign,
    /// `?`, where unset
    Error,
    /// `+`, where set
    Other,
}

/// The operator that removes a match from a parameter's value.
#[derive(Clone, Copy, PartialEq, Eq)]
pub enum StripOp {
    /// `##`
    LongestPrefix,
    /// `#`
    ShortestPrefix,
    /// `%%`
    LongestSuffix,
    /// `%`
    ShortestSuffix,
}

/// The operator that replaces matches in a parameter's value.
#[derive(Clone, Copy, PartialEq, Eq)]
pub enum ReplaceOp {
    /// `//`
    All,
    /// `/#`
    Prefix,
    /// `/%`
    Suffix,
    /// `/`
    First,
}

/// The operator that changes the case of a parameter's value.
#[derive(Clone, Copy, PartialEq, Eq)]
pub enum CaseOp {
    /// `^^`
    UpperAll,
    /// `^`
    UpperFirst,
    /// `,,`
    LowerAll,
    /// `,`
    LowerFirst,
}

/// The rule Plain.
#[derive(Clone, Copy, PartialEq, Eq)]
pub enum Plain {
    Byte(u8),
    /// A dollar that begins nothing.
    Lone,
}

/// The rule AndOr.
#[derive(Drop)]
pub struct AndOrOf<P> {
    pub first: P,
    pub others: List<JoinedOf<P>>,
}

/// A Pipe after `&&` or `||`.
#[derive(Drop)]
pub struct JoinedOf<P> {
    pub junction: Junction,
    pub pipe: P,
}

/// The rule Pipe.
#[derive(Drop)]
pub struct PipeOf<C> {
    pub marks: List<PipeMark>,
    pub first: C,
    pub others: List<PipedOf<C>>,
}

/// A Command after a bar.
#[derive(Drop)]
pub struct PipedOf<C> {
    pub bar: Bar,
    pub command: C,
}

/// The rule Item.
#[derive(Drop)]
pub struct ItemOf<A> {
    pub list: A,
    pub end: ItemEnd,
}

/// A further test of an `if`, with what is run where it holds.
#[derive(Drop)]
pub struct ElifOf<B> {
    pub test: B,
    pub body: B,
}

/// The rule And.
#[derive(Drop)]
pub struct AndOf<N> {
    pub first: N,
    pub others: List<N>,
}

/// The rule Or.
#[derive(Drop)]
pub struct OrOf<N> {
    pub first: AndOf<N>,
    pub others: List<AndOf<N>>,
}

/// The rule RIn.
#[derive(Drop)]
pub enum RInOf<R> {
    Regex(R),
    Blank(Blank),
}

/// The rule FuncDef.
#[derive(Drop)]
pub struct FuncDefOf<C> {
    /// Whether it begins with `function`.
    pub keyword: bool,
    pub name: FName,
    /// The Compound and its Redirs, as one command.
    pub body: C,
}

/// The rule Coproc.
#[derive(Drop)]
pub struct CoprocOf<C> {
    /// The Compound, without Redirs, or the Simple, as a command.
    pub command: C,
}

/// What an Assign assigns.
#[derive(Drop)]
pub enum AssignedOf<W> {
    /// The words of an array.
    Array(List<W>),
    /// The pieces, perhaps none, as a word.
    Text(W),
}

/// What is read for a here-document: its lines, without the tabs that `<<-` removes.
#[derive(Drop)]
pub enum HereTextOf<Q> {
    /// The bytes, where the mark's word was quoted.
    Literal(Bytes),
    /// What they stand for inside quotes, where it was not.
    Parts(Shared<List<Q>>),
}

/// A part of an extended group.
#[derive(Drop)]
pub enum GroupPartOf<P> {
    Piece(P),
    Blank(Blank),
    /// `|`
    Bar,
}

/// The rule Ref.
#[derive(Drop)]
pub enum RefOf<S> {
    Name(Name, Option<S>),
    Digits(Bytes),
    Special(u8),
}
