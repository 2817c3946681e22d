// What a word is made of before it has tokens.
#[derive(Clone, Copy)]
pub(crate) enum Symbol {
    // The token at this place of the word that was read.
    At(usize),
    // An unquoted byte of a sequence.
    Byte(u8),
}
