/// What opens a frame.
#[derive(Clone, Copy, Debug, PartialEq, Eq)]
pub enum FrameKind {
    /// A call of a function, whose local names it holds.
    Call,
    /// A command with assignments before it, which hold while it runs.
    Prefix,
}
