/// What a script may have open while a part of it runs.
#[derive(Clone, Copy, Debug, PartialEq, Eq)]
pub enum Opened {
    /// A call of a function.
    Call,
    /// The commands of `eval`.
    Eval,
    /// A script of the host.
    Source,
    /// A subshell, or a command substitution.
    Sub,
    /// A compound command.
    Compound,
    /// The redirections of a command. They count to no limit.
    Redirs,
}
