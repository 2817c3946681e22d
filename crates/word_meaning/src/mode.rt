/// What becomes of the elements of a list, as `$@` and `${a[*]}` are.
#[derive(Clone, Copy)]
pub enum Mode {
    /// They stay apart, each a field or more.
    Fields,
    /// They are joined, as where one text is wanted.
    Text,
}

/// Where a tilde may stand for HOME.
#[derive(Clone, Copy)]
pub enum Tildes {
    /// Nowhere, as in a subscript.
    Nowhere,
    /// At the start, as in a word.
    AtStart,
    /// At the start and after each colon, as in an assigned value.
    InValue,
}
