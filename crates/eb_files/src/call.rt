use crate::path::Path;

/// What a failed replacement or removal leaves at its path: the old file, no file, or so many of the new bytes. No
/// call uses it yet: it is kept for the calls that write.
#[derive(Clone, Copy, Debug, PartialEq, Eq)]
pub enum Left {
    Old,
    Gone,
    Prefix(usize),
}

/// A call on a tree of files.
#[derive(Clone, Copy, Debug, PartialEq, Eq)]
pub enum CallKind {
    List,
    Read,
    Replace,
    Remove,
}

/// A call that was made, the path that it named, and whether it answered Ok.
#[derive(Debug, Drop)]
pub struct Call {
    pub kind: CallKind,
    pub path: Path,
    pub ok: bool,
}
