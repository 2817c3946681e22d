use thiserror::Error;

/// Why a text is no script.
#[derive(Clone, Copy, Debug, Drop, PartialEq, Eq, Error)]
pub enum ParseErr {
    /// On this line stands the first byte that the outermost list of commands does not take: where one of its commands is
    /// wrong, this is the line on which that command begins. Or the text ends on it while a here-document still waits for
    /// its body.
    #[error("line {line} is no part of a script")]
    Refused { line: u32 },
    /// On this line a nesting is opened that is one too many.
    #[error("line {line} is nested too deep")]
    TooDeep { line: u32 },
    /// Out of memory.
    #[error("out of memory")]
    Memory,
}
