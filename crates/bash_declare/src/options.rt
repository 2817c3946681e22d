//! The options of a declaration.

ghost use Rattle.std.specs.Prelude.{◌≡◌};
ghost use Rattle.bash_declare.specs.Options as spec;

use eb_bytes::Bytes;
use eb_syntax::DeclName;

/// The options of a declaration.
#[derive(Clone, Copy)]
pub struct Options {
    /// `-a`: a text that is given becomes element 0 of an array.
    pub array: bool,
    /// `-r`
    pub readonly: bool,
    /// `-x`
    pub exported: bool,
    /// `-g`
    pub global: bool,
    /// `-p`
    pub print: bool,
    /// `-f` or `-F`
    pub functions: bool,
}

/// A letter that is no option, with its sign.
#[derive(Clone, Copy)]
pub struct Unknown {
    pub sign: u8,
    pub letter: u8,
}

// The name of the declaration.
pub(crate) fn name_of(declaration: DeclName) -> &'static [u8]
    ensures { result.now ≡ spec.name_of declaration }
{
    match declaration {
        DeclName::Declare => b"declare",
        DeclName::Typeset => b"typeset",
        DeclName::Local => b"local",
        DeclName::Export => b"export",
        DeclName::Readonly => b"readonly",
    }
}

// What the words say.
pub(crate) fn read_options(declaration: DeclName, words: &[Bytes]) -> Result<Options, Unknown>
    ensures { result ≡ spec.options_of declaration words.now }
{
    let mut options = no_options();
    for word in words {
        options = with_word(declaration, word.as_slice(), options)?;
    }
    Ok(options)
}

fn no_options() -> Options
    ensures { result ≡ spec.no_options }
{
    Options {
        array: false,
        readonly: false,
        exported: false,
        global: false,
        print: false,
        functions: false,
    }
}

fn with_word(declaration: DeclName, word: &[u8], options: Options) -> Result<Options, Unknown>
    ensures { result ≡ spec.with_word declaration word.now options }
{
    match word {
        [] | [_] => Ok(options),
        [b'-', letters @ ..] => with_letters(declaration, letters, options),
        [sign, letter, ..] => Err(Unknown {
            sign: *sign,
            letter: *letter,
        }),
    }
}

fn with_letters(declaration: DeclName, letters: &[u8], options: Options) -> Result<Options, Unknown>
    ensures { result ≡ spec.with_letters declaration letters.now options }
{
    let mut read = options;
    for letter in letters {
        match with_letter(declaration, *letter, read) {
            Some(more) => read = more,
            None => {
                return Err(Unknown {
                    sign: b'-',
                    letter: *letter,
                });
            }
        }
    }
    Ok(read)
}

fn with_letter(declaration: DeclName, letter: u8, options: Options) -> Option<Options>
    ensures { result ≡ spec.with_letter declaration letter options }
{
    let mut options = options;
    match letter {
        b'a' => options.array = true,
        b'r' => options.readonly = true,
        b'x' => options.exported = true,
        b'g' => options.global = true,
        b'p' if can_show(declaration) => options.print = true,
        b'f' | b'F' if can_show(declaration) => options.functions = true,
        _ => return None,
    }
    Some(options)
}

fn can_show(declaration: DeclName) -> bool
    ensures { result ≡ spec.can_show declaration }
{
    matches!(declaration, DeclName::Declare | DeclName::Typeset)
}
