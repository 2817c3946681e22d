//! The syntax trees of bash scripts: a type for each rule of the grammar that has a node, named by its rule. What each
//! rule reads is the definition of eb_grammar.
#![tactic(auto)]

mod parts;
mod tree;

pub use parts::{
    AndOf, AndOrOf, AssignedOf, Bar, BinOp, Blank, BothOp, CaseOp, ClauseEnd, CoprocOf, DeclName,
    ElifOf, FName, FileOp, FuncDefOf, GroupPartOf, HereOp, HereTextOf, ItemEnd, ItemOf, JoinedOf,
    Junction, Name, OrOf, PipeMark, PipeOf, PipedOf, Plain, Process, RInOf, RefOf, ReplaceOp,
    StripOp, Unary, ValueOp, WordOp,
};
pub use tree::{
    AP, And, AndOr, Argument, Arith, ArithS, ArithText, Assign, Assigned, Back, Body, CWord,
    Clause, Command, Compound, Coproc, DQ, Decl, Do, Dollar, Elif, FuncDef, GroupPart, HereBody,
    HereText, Item, Items, Joined, Not, Op, Or, PW, Param, Piece, Pipe, Piped, Prefix, Prim,
    Primary, QPiece, RIn, Redir, Ref, Regex, RegexPart, SW, Script, Simple, Sub, SubPart, Tail,
    TailPart, Word,
};
