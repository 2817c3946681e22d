ghost use Rattle.std.specs.Prelude.{◌≡◌};
ghost use Rattle.std.specs.List.{list_all};
ghost use Rattle.byte_class.specs.Class as class;

/// Whether this is the byte 0, which no text of a shell holds.
pub fn is_nul(byte: u8) -> bool
    ensures { result ≡ class.is_nul byte }
{
    byte == 0
}

/// Whether this is a blank or a tab.
pub fn is_blank(byte: u8) -> bool
    ensures { result ≡ class.is_blank byte }
{
    matches!(byte, b' ' | b'\t')
}

/// Whether this stands between two words: a blank, tab or newline.
pub fn is_space(byte: u8) -> bool
    ensures { result ≡ class.is_space byte }
{
    matches!(byte, b' ' | b'\t' | b'\n')
}

/// Whether this is a newline.
pub fn is_newline(byte: u8) -> bool
    ensures { result ≡ class.is_newline byte }
{
    byte == b'\n'
}

/// Whether this is one of `0` to `9`.
pub fn is_digit(byte: u8) -> bool
    ensures { result ≡ class.is_digit byte }
{
    byte.is_ascii_digit()
}

/// Whether this is one of `a` to `z`.
pub fn is_lower(byte: u8) -> bool
    ensures { result ≡ class.is_lower byte }
{
    byte.is_ascii_lowercase()
}

/// Whether this is one of `A` to `Z`.
pub fn is_upper(byte: u8) -> bool
    ensures { result ≡ class.is_upper byte }
{
    byte.is_ascii_uppercase()
}

/// Whether this is one of `A` to `Z` or `a` to `z`.
pub fn is_letter(byte: u8) -> bool
    ensures { result ≡ class.is_letter byte }
{
    is_upper(byte) || is_lower(byte)
}

/// Whether this is a letter or a digit.
pub fn is_letter_or_digit(byte: u8) -> bool
    ensures { result ≡ class.is_letter_or_digit byte }
{
    is_letter(byte) || is_digit(byte)
}

/// Whether a name may begin with this: a letter or `_`.
pub fn is_name_start(byte: u8) -> bool
    ensures { result ≡ class.is_name_start byte }
{
    is_letter(byte) || byte == b'_'
}

/// Whether a name may hold this: a letter, a digit or `_`.
pub fn is_name_byte(byte: u8) -> bool
    ensures { result ≡ class.is_name_byte byte }
{
    is_name_start(byte) || is_digit(byte)
}

fn are_name_bytes(text: &[u8]) -> bool
    ensures { result ≡ list_all class.is_name_byte text.now }
{
    text.iter().all(|byte| is_name_byte(*byte))
}

/// Whether a text is a name of a shell variable or function: letters, digits and `_`, at least one, the first no digit
/// (Bash Reference Manual, "Definitions").
pub fn is_name(text: &[u8]) -> bool
    ensures { result ≡ class.is_name text.now }
{
    match text {
        [first, others @ ..] => { is_name_start(*first) && are_name_bytes(others) }
        [] => false,
    }
}
