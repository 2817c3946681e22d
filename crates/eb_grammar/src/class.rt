/// A class of bytes of the grammar. No class holds the byte 0.
#[derive(Clone, Copy, PartialEq, Eq)]
pub enum Class {
    /// `[^]`: every byte but 0
    Any,
    /// `[^\n]`
    NotNewline,
    /// `[ \t\n;&|()<>]`: the metacharacters, which end a keyword
    Meta,
    /// `[0-9]`
    Digit,
    /// `[A-Za-z]`
    Letter,
    /// `[A-Za-z_]`
    NameStart,
    /// `[A-Za-z0-9_]`
    NamePart,
    /// ``[^ \t\n|&;()<>$`"'\\]``
    Plain,
    /// ``[^ \t\n|&;()<>$`"'\\=]``
    FunctionName,
    /// `[^']`
    Single,
    /// `[^'\\]`
    Ansi,
    /// ``[$`"\\]``: what a backslash quotes between double quotes
    Escaped,
    /// ``[^"$`]``
    Double,
    /// ``[^`\\]``
    Back,
    /// ``[$`\\]``: what loses its backslash between backquotes
    Unescaped,
    /// `[?*+@!]`: what begins an extended group
    GroupMark,
    /// `[({@*#?$!-]` and `[A-Za-z0-9_]`: what makes a dollar more than itself
    AfterDollar,
    /// `[@*#?$!-]`: the special parameters
    Special,
    /// `[@*]`
    AllElements,
    /// `[:}]`
    SliceEnd,
    /// ``[^$`"\\]``
    Slice,
    /// ``[^()$`\\]``
    Arith,
    /// `[\[\]]`
    Bracket,
    /// `[\n#]`
    LineEnd,
}
