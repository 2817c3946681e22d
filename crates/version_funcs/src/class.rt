ghost use Rattle.std.specs.Prelude.{◌≡◌, ◌<◌, ◌∷◌, [], length, MatchOption};
ghost use Rattle.std.specs.List.{list_all, prefix_len, take_while};
ghost use Rattle.version_funcs.specs.Byte.{after_while, in_class};
ghost use Rattle.version_funcs.specs.Walk.{after_marks};

use byte_class::{is_digit, is_letter, is_letter_or_digit, is_lower};

// The bytes that a part of a text is made of.
#[derive(Clone, Copy)]
pub(crate) enum Class {
    // The digits 0 to 9.
    Digit,
    // The digits and the dot.
    DigitOrDot,
    // The digit 0.
    Zero,
    // The letters a to z.
    Lower,
    // The letters A to Z and a to z.
    Letter,
    // All but the digits and these letters.
    Separator,
    // All but this byte.
    AllBut(u8),
}

impl Class {
    fn has(self, byte: u8) -> bool
        ensures { result ≡ in_class self byte }
    {
        match self {
            Class::Digit => is_digit(byte),
            Class::DigitOrDot => is_digit(byte) || byte == b'.',
            Class::Zero => byte == b'0',
            Class::Lower => is_lower(byte),
            Class::Letter => is_letter(byte),
            Class::Separator => !is_letter_or_digit(byte),
            Class::AllBut(mark) => byte != mark,
        }
    }
}

// How many bytes of the class stand at the front.
fn run_len(class: Class, text: &[u8]) -> usize
    ensures { result ≡ prefix_len (in_class class) text.now }
{
    text.iter().take_while(|byte| class.has(**byte)).count()
}

// The longest run of bytes of the class at the front, and what stands after it.
pub(crate) fn split_run(class: Class, text: &[u8]) -> (&[u8], &[u8])
    ensures run { result.0.now ≡ take_while (in_class class) text.now }
    ensures rest { result.1.now ≡ after_while (in_class class) text.now }
{
    text.split_at(run_len(class, text))
}

// Whether all the bytes are of the class.
pub(crate) fn is_all(class: Class, text: &[u8]) -> bool
    ensures { result ≡ list_all (in_class class) text.now }
{
    text.iter().all(|byte| class.has(*byte))
}

// The first piece of a text that is made of pieces, each after the mark, and the text from the next mark on.
pub(crate) fn next_piece(mark: u8, text: &[u8]) -> Option<(&[u8], &[u8])>
    ensures after_marks { MatchOption result (after_marks mark text.now ≡ []) (λ r. after_marks mark text.now ≡ r.0.now ∷ after_marks mark r.1.now) }
    ensures shorter { MatchOption result (text.now ≡ []) (λ r. length r.1.now < length text.now) }
{
    match text {
        [] => None,
        [_, inner @ ..] => Some(split_run(Class::AllBut(mark), inner)),
    }
}
