use eb_bytes::Bytes;
use eb_syntax::{
    AP, CaseOp, GroupPart, Items, PW, Param, Piece, QPiece, ReplaceOp, SW, StripOp, SubPart,
};
use expand_marks::Given;
use expand_values::{Found, Place};
use shared::Shared;
use shell_marks::Marked;
use sqlite_items::Items as List;
use word_meaning::{Mode, Tildes};

/// What stands in a part of a word that is open.
#[derive(Drop)]
pub enum Parts {
    /// The pieces of a word.
    Pieces(Shared<List<Piece>>),
    /// What stands in double quotes.
    Quoted(Shared<List<QPiece>>),
    /// The word of an operator.
    Operand(Shared<List<PW>>),
    /// The offset or the length of a slice.
    Slice(Shared<List<SW>>),
    /// The text of an arithmetic expression.
    Arith(Shared<List<AP>>),
    /// A subscript.
    Subscript(Shared<List<SubPart>>),
    /// An extended group.
    Group(Shared<List<GroupPart>>),
}

/// How what is found for a parameter is shown, and the parameter's name as it is written.
#[derive(Drop)]
pub struct Target {
    /// Whether a list may give fields.
    pub mode: Mode,
    /// Whether the parameter stands in double quotes.
    pub quoted: bool,
    /// Its name, without its subscript.
    pub name: Bytes,
}

/// What is made of an open part once all that stands in it is expanded.
#[derive(Drop)]
pub enum Use {
    /// It is a word, or another whole text.
    Whole,
    /// `".."`
    Quotes,
    /// An extended group, with the byte before its parenthesis.
    Group(u8),
    /// Parentheses in an arithmetic text.
    Parenthesis,
    /// Brackets in a subscript.
    Bracket,
    /// `$((..))`: the value of the text, and whether it stands in double quotes.
    Arithmetic(bool),
    /// The subscript of a parameter, which goes on with the element.
    Index(Mode, bool, Shared<Param>),
    /// The subscript of the variable of this name, to which `${!..}` points: the parameter goes on with the element.
    Pointed(Mode, bool, Shared<Param>, Bytes),
    /// The word that stands for a value.
    Value,
    /// The word of `=`: the text is given to that place, and whether it stands in double quotes.
    Assign(bool, Place),
    /// The word of `?`: the message, for the parameter of this name.
    Fail(Bytes),
    /// The pattern of `#`, `##`, `%` and `%%`.
    Strip(Target, StripOp, Found),
    /// The pattern of `^`, `^^`, `,` and `,,`, and whether one is written.
    Case(Target, CaseOp, bool, Found),
    /// The pattern of `/` and its kin, with the replacement, where one is written.
    Pattern(Target, ReplaceOp, Option<Shared<List<PW>>>, Found),
    /// The replacement for a pattern of these marks, and whether extended groups are read in it.
    Replacement(Target, ReplaceOp, Marked, bool, Found),
    /// The offset of a slice, with the length, where one is written.
    Offset(Target, Option<Shared<List<SW>>>, Found),
    /// The length of a slice from this offset on.
    Length(Target, i64, Found),
}

/// A part of a word that is open.
#[derive(Drop)]
pub struct Level {
    /// What stands in it.
    pub parts: Parts,
    /// How many of these are taken.
    pub at: usize,
    /// Whether lists in it may give fields.
    pub mode: Mode,
    /// Where a tilde may stand for HOME.
    pub tildes: Tildes,
    /// Whether the next one, if it is a tilde, may.
    pub may_be_home: bool,
    /// What those that were taken gave.
    pub found: Given,
    /// What is made of it.
    pub used: Use,
}

/// What a part of a word comes to, before another one is looked at.
#[derive(Drop)]
pub enum Act {
    /// It gives this.
    Give(Given),
    /// It is opened.
    Open(Level),
    /// Its commands have to be run; and whether it stands in double quotes.
    Run(bool, Items),
    /// This text is the reference to which the parameter `${!..}` points.
    Point(Mode, bool, Shared<Param>, Bytes),
}
