ghost use Rattle.std.specs.Prelude.{◌≡◌, ◌≤◌, ◌+◌, ◌*◌, ℕ, false, true, min, IfSome};
ghost use Rattle.std.specs.Char.{digit_value};
ghost use Rattle.shell_state.specs.declared.io.Io.{Io as Connections};
ghost use Rattle.eb_syntax.specs.declared.tree.Redir.{out-Redir};
ghost use Rattle.bash_calls.specs.Changes.{changed, ended, is_input_change};
ghost use Rattle.bash_calls.specs.Redirections as redirections;

use byte_class::is_digit;
use eb_syntax::{FileOp, Redir, WordOp};
use shell_state::{Io, Target};

/// What a redirection does.
#[derive(Clone, Copy)]
pub(crate) enum Change<'a> {
    /// The input is this text, with a newline after it where the second says so.
    Input(&'a [u8], bool),
    /// Standard output goes there.
    Out(Target),
    /// Standard error does.
    Err(Target),
    /// Both go nowhere.
    Neither,
}

// The number that digits name, and 3 for any above 2.
#[tactic(auto, using(crate::proofs::Numbered::digit_more))]
fn number(digits: &[u8]) -> u8
    ensures { result ≡ min 3 (redirections.number digits.now) }
{
    let mut value = 0u8;
    for digit in digits {
        value = next_number(value, *digit);
    }
    value
}

// The number once one more digit stands after it.
fn next_number(before: u8, digit: u8) -> u8
    requires { before ≤ 3 }
    ensures { result ≡ min 3 (before * 10 + digit_value digit) }
{
    if is_digit(digit) {
        (before * 10 + (digit - b'0')).min(3)
    } else {
        3
    }
}

// The descriptor that digits name, and 3 for any above 2; without digits it is the one that the operator has by itself.
fn descriptor(own: u8, digits: &[u8]) -> u8
    requires { own ≤ 3 }
    ensures { result ≡ min 3 (redirections.descriptor own digits.now) }
{
    if digits.is_empty() {
        own
    } else {
        number(digits)
    }
}

// Another target for an output.
fn retargeted<'a>(descriptor: u8, target: Target) -> Option<Change<'a>>
    ensures means { (n : ℕ) (io : Connections) → descriptor ≡ min 3 n → changed result io ≡ redirections.retargeted n target io }
    ensures output { IfSome result (λ change. is_input_change change ≡ false) }
{
    match descriptor {
        1 => Some(Change::Out(target)),
        2 => Some(Change::Err(target)),
        _ => None,
    }
}

// Where the output goes that a word names.
fn output_named(target: &[u8], io: &Io) -> Option<Target>
    ensures { result ≡ redirections.output_named target.now io.now }
{
    if target == b"1".as_slice() {
        Some(io.out)
    } else if target == b"2".as_slice() {
        Some(io.err)
    } else {
        None
    }
}

// Only descriptor 0 can be read from.
fn read_from<'a>(digits: &[u8], text: &'a [u8], newline: bool) -> Option<Change<'a>>
    ensures means { (io : Connections) → changed result io ≡ redirections.read_from digits.now (ended newline text.now) io }
    ensures input { IfSome result (λ change. is_input_change change ≡ true) }
{
    if descriptor(0, digits) == 0 {
        Some(Change::Input(text, newline))
    } else {
        None
    }
}

// Whether a target is the only file that there is.
fn is_null(target: &[u8]) -> bool
    ensures { result ≡ redirections.is_null target.now }
{
    target == b"/dev/null".as_slice()
}

// An output to a file.
fn written_to<'a>(digits: &[u8], target: &[u8]) -> Option<Change<'a>>
    ensures means { (io : Connections) → changed result io ≡ redirections.written_to digits.now target.now io }
    ensures output { IfSome result (λ change. is_input_change change ≡ false) }
{
    if is_null(target) {
        retargeted(descriptor(1, digits), Target::Drop)
    } else {
        None
    }
}

// An output to where another one goes.
fn copied_to<'a>(digits: &[u8], target: &[u8], io: &Io) -> Option<Change<'a>>
    ensures means { changed result io.now ≡ redirections.copied_to (redirections.descriptor 1 digits.now) (redirections.output_named target.now io.now) io.now }
    ensures output { IfSome result (λ change. is_input_change change ≡ false) }
{
    match output_named(target, io) {
        Some(output) => retargeted(descriptor(1, digits), output),
        None => None,
    }
}

// The same where the descriptor must be named.
fn copied_to_numbered<'a>(digits: &[u8], target: &[u8], io: &Io) -> Option<Change<'a>>
    ensures means { changed result io.now ≡ redirections.copied_to_numbered digits.now target.now io.now }
    ensures output { IfSome result (λ change. is_input_change change ≡ false) }
{
    if digits.is_empty() {
        None
    } else {
        copied_to(digits, target, io)
    }
}

fn by_word<'a>(op: WordOp, digits: &[u8], target: &'a [u8], io: &Io) -> Option<Change<'a>>
    ensures means { changed result io.now ≡ redirections.by_word op digits.now target.now io.now }
    ensures input { IfSome result (λ change. is_input_change change ≡ redirections.word_takes_input op) }
{
    match op {
        WordOp::HereString => read_from(digits, target, true),
        WordOp::ReadWrite => None,
        WordOp::DuplicateInput => copied_to_numbered(digits, target, io),
        WordOp::Append | WordOp::Clobber => written_to(digits, target),
        WordOp::DuplicateOutput => copied_to(digits, target, io),
    }
}

fn by_file<'a>(op: FileOp, digits: &[u8], target: &'a [u8], io: &Io) -> Option<Change<'a>>
    ensures means { changed result io.now ≡ redirections.by_file op digits.now target.now io.now }
    ensures input { IfSome result (λ change. is_input_change change ≡ redirections.file_takes_input op) }
{
    match op {
        FileOp::Read => {
            if is_null(target) {
                read_from(digits, &[], false)
            } else {
                None
            }
        }
        FileOp::Write => written_to(digits, target),
    }
}

/// What a redirection to this target does; none where it is refused. The target of a here-document is its body.
pub(crate) fn change_of<'a>(redir: &Redir, target: &'a [u8], io: &Io) -> Option<Change<'a>>
    ensures means { changed result io.now ≡ redirections.made (out-Redir redir.now) target.now io.now }
    ensures input { IfSome result (λ change. is_input_change change ≡ redirections.takes_input (out-Redir redir.now)) }
{
    match redir {
        Redir::Word(digits, op, _) => by_word(*op, digits.as_slice(), target, io),
        Redir::Here(digits, _, _, _, _) => read_from(digits.as_slice(), target, false),
        Redir::File(digits, op, _) => by_file(*op, digits.as_slice(), target, io),
        Redir::Both(_, _) => {
            if is_null(target) {
                Some(Change::Neither)
            } else {
                None
            }
        }
    }
}
