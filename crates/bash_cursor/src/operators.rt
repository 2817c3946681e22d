//! The operators of parameters and redirections, of which the longest that stands at the place is read. `None` where none
//! stands there.

ghost use Rattle.bash_cursor.specs.Reads.{Finds};
ghost use Rattle.eb_grammar.specs.Params as params;
ghost use Rattle.eb_grammar.specs.Redirections as redirections;
ghost use Rattle.eb_grammar.specs.Words as words;

use crate::cursor::Cursor;
use eb_grammar::Class;
use eb_syntax::{BothOp, CaseOp, FileOp, HereOp, Process, ReplaceOp, StripOp, ValueOp, WordOp};

/// `:-`, `:=`, `:?`, `:+`, `-`, `=`, `?` or `+` (Bash Reference Manual, "Shell Parameter Expansion").
#[tactic(auto, unfolding(eb_grammar::specs::Params::value_op))]
pub fn value_op(c: &mut Cursor<'_>) -> Option<ValueOp>
    ensures { Finds params.value_op c.old result c.new }
{
    if c.eat(b":-") {
        return Some(ValueOp::DefaultOfEmpty);
    }
    if c.eat(b":=") {
        return Some(ValueOp::AssignOfEmpty);
    }
    if c.eat(b":?") {
        return Some(ValueOp::ErrorOfEmpty);
    }
    if c.eat(b":+") {
        return Some(ValueOp::OtherOfFilled);
    }
    if c.eat(b"-") {
        return Some(ValueOp::Default);
    }
    if c.eat(b"=") {
        return Some(ValueOp::Assign);
    }
    if c.eat(b"?") {
        return Some(ValueOp::Error);
    }
    if c.eat(b"+") {
        return Some(ValueOp::Other);
    }
    None
}

/// `##`, `#`, `%%` or `%`.
#[tactic(auto, unfolding(eb_grammar::specs::Params::strip_op))]
pub fn strip_op(c: &mut Cursor<'_>) -> Option<StripOp>
    ensures { Finds params.strip_op c.old result c.new }
{
    if c.eat(b"##") {
        return Some(StripOp::LongestPrefix);
    }
    if c.eat(b"#") {
        return Some(StripOp::ShortestPrefix);
    }
    if c.eat(b"%%") {
        return Some(StripOp::LongestSuffix);
    }
    if c.eat(b"%") {
        return Some(StripOp::ShortestSuffix);
    }
    None
}

/// `//`, `/#`, `/%` or `/`.
#[tactic(auto, unfolding(eb_grammar::specs::Params::replace_op))]
pub fn replace_op(c: &mut Cursor<'_>) -> Option<ReplaceOp>
    ensures { Finds params.replace_op c.old result c.new }
{
    if c.eat(b"//") {
        return Some(ReplaceOp::All);
    }
    if c.eat(b"/#") {
        return Some(ReplaceOp::Prefix);
    }
    if c.eat(b"/%") {
        return Some(ReplaceOp::Suffix);
    }
    if c.eat(b"/") {
        return Some(ReplaceOp::First);
    }
    None
}

/// `^^`, `^`, `,,` or `,`.
#[tactic(auto, unfolding(eb_grammar::specs::Params::case_op))]
pub fn case_op(c: &mut Cursor<'_>) -> Option<CaseOp>
    ensures { Finds params.case_op c.old result c.new }
{
    if c.eat(b"^^") {
        return Some(CaseOp::UpperAll);
    }
    if c.eat(b"^") {
        return Some(CaseOp::UpperFirst);
    }
    if c.eat(b",,") {
        return Some(CaseOp::LowerAll);
    }
    if c.eat(b",") {
        return Some(CaseOp::LowerFirst);
    }
    None
}

/// `<<<`, `<>`, `<&`, `>>`, `>&` or `>|` (Bash Reference Manual, "Redirections").
#[tactic(auto, unfolding(eb_grammar::specs::Redirections::word_op))]
pub fn word_op(c: &mut Cursor<'_>) -> Option<WordOp>
    ensures { Finds redirections.word_op c.old result c.new }
{
    if c.eat(b"<<<") {
        return Some(WordOp::HereString);
    }
    if c.eat(b"<>") {
        return Some(WordOp::ReadWrite);
    }
    if c.eat(b"<&") {
        return Some(WordOp::DuplicateInput);
    }
    if c.eat(b">>") {
        return Some(WordOp::Append);
    }
    if c.eat(b">&") {
        return Some(WordOp::DuplicateOutput);
    }
    if c.eat(b">|") {
        return Some(WordOp::Clobber);
    }
    None
}

/// `<<-` or `<<`.
#[tactic(auto, unfolding(eb_grammar::specs::Redirections::here_op))]
pub fn here_op(c: &mut Cursor<'_>) -> Option<HereOp>
    ensures { Finds redirections.here_op c.old result c.new }
{
    if c.eat(b"<<-") {
        return Some(HereOp::StripTabs);
    }
    if c.eat(b"<<") {
        return Some(HereOp::Plain);
    }
    None
}

/// `<` or `>`.
#[tactic(auto, unfolding(eb_grammar::specs::Redirections::file_op))]
pub fn file_op(c: &mut Cursor<'_>) -> Option<FileOp>
    ensures { Finds redirections.file_op c.old result c.new }
{
    if c.eat(b"<") {
        return Some(FileOp::Read);
    }
    if c.eat(b">") {
        return Some(FileOp::Write);
    }
    None
}

/// `&>>` or `&>`.
#[tactic(auto, unfolding(eb_grammar::specs::Redirections::both_op))]
pub fn both_op(c: &mut Cursor<'_>) -> Option<BothOp>
    ensures { Finds redirections.both_op c.old result c.new }
{
    if c.eat(b"&>>") {
        return Some(BothOp::Append);
    }
    if c.eat(b"&>") {
        return Some(BothOp::Write);
    }
    None
}

/// `<(` or `>(` (Bash Reference Manual, "Process Substitution").
#[tactic(auto, unfolding(eb_grammar::specs::Words::process_start))]
pub fn process_start(c: &mut Cursor<'_>) -> Option<Process>
    ensures { Finds words.process_start c.old result c.new }
{
    if c.eat(b"<(") {
        return Some(Process::Read);
    }
    if c.eat(b">(") {
        return Some(Process::Write);
    }
    None
}

/// `?`, `*`, `+`, `@` or `!` with `(` after it: the byte before the parenthesis (Bash Reference Manual, "Pattern
/// Matching").
#[tactic(auto, unfolding(eb_grammar::specs::Words::group_start))]
pub fn group_start(c: &mut Cursor<'_>) -> Option<u8>
    ensures { Finds words.group_start c.old result c.new }
{
    let start = c.here();
    let Some(kind) = c.byte(Class::GroupMark) else {
        return None;
    };
    if !c.eat(b"(") {
        c.back_to(start);
        return None;
    }
    Some(kind)
}
