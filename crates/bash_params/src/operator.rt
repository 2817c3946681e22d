/// Which part of a text a strip takes away.
#[derive(Clone, Copy)]
pub enum Strip {
    /// `#`: the shortest prefix that the pattern matches.
    ShortPrefix,
    /// `##`: the longest prefix.
    LongPrefix,
    /// `%`: the shortest suffix.
    ShortSuffix,
    /// `%%`: the longest suffix.
    LongSuffix,
}

/// Which matches a replacement takes.
#[derive(Clone, Copy)]
pub enum Replace {
    /// `/`: the leftmost, and there the longest.
    First,
    /// `//`: all from left to right, each the longest where it begins, without overlap and without empty ones.
    All,
    /// `/#`: the longest at the start.
    AtStart,
    /// `/%`: the longest at the end.
    AtEnd,
}

/// Which bytes a case operator changes, and to which case.
#[derive(Clone, Copy)]
pub enum CaseOp {
    /// `^`: the first byte, to upper case.
    UpFirst,
    /// `^^`: each byte, to upper case.
    UpAll,
    /// `,`: the first byte, to lower case.
    DownFirst,
    /// `,,`: each byte, to lower case.
    DownAll,
}
