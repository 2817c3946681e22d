use bash_builtins::{Builtin, Plain, builtin_of};
use eb_syntax::DeclName;
use probe_base::{Answer, Fault};

/// `builtin TEXT`: which builtin has this name, `none` where none has it; `plain` stands before one that neither runs
/// commands, nor jumps, nor changes the parameters, and `declaration` before one that declares variables.
pub fn builtin(name: &[u8], answer: &mut Answer) -> Result<(), Fault> {
    match builtin_of(name) {
        Some(Builtin::Plain(plain)) => {
            answer.word("plain");
            answer.word(plain_name(plain));
        }
        Some(Builtin::Declaration(declaration)) => {
            answer.word("declaration");
            answer.word(declaration_name(declaration));
        }
        Some(other) => answer.word(other_name(other)),
        None => answer.word("none"),
    }
    Ok(())
}

fn plain_name(plain: Plain) -> &'static str {
    match plain {
        Plain::Colon => "colon",
        Plain::True => "true",
        Plain::False => "false",
        Plain::Echo => "echo",
        Plain::Printf => "printf",
        Plain::Read => "read",
        Plain::Shopt => "shopt",
    }
}

fn declaration_name(declaration: DeclName) -> &'static str {
    match declaration {
        DeclName::Declare => "declare",
        DeclName::Typeset => "typeset",
        DeclName::Local => "local",
        DeclName::Export => "export",
        DeclName::Readonly => "readonly",
    }
}

fn other_name(builtin: Builtin) -> &'static str {
    match builtin {
        Builtin::Plain(_) | Builtin::Declaration(_) => "",
        Builtin::Bracket => "bracket",
        Builtin::Break => "break",
        Builtin::Continue => "continue",
        Builtin::Eval => "eval",
        Builtin::Let => "let",
        Builtin::Return => "return",
        Builtin::Set => "set",
        Builtin::Shift => "shift",
        Builtin::Test => "test",
        Builtin::Unset => "unset",
    }
}
