ghost use Rattle.std.specs.Prelude.{◌≡◌};
ghost use Rattle.bash_calls.specs.Calls.{kind_of};

use crate::args::Args;
use eb_bytes::Bytes;
use shell_state::{Opened, Target};

/// What is opened.
#[derive(Drop)]
pub enum Open {
    /// A call of a function, with its arguments.
    Call(Args),
    /// The commands of `eval`.
    Eval,
    /// A script of the host.
    Source,
    /// A subshell, or a command substitution.
    Sub,
    /// A compound command.
    Compound,
    /// The redirections of a command. They count to no limit.
    Redirs,
}

impl Open {
    /// The kind of what is opened.
    pub(crate) fn kind(&self) -> Opened
        ensures { result ≡ kind_of self.now }
    {
        match self {
            Open::Call(_) => Opened::Call,
            Open::Eval => Opened::Eval,
            Open::Source => Opened::Source,
            Open::Sub => Opened::Sub,
            Open::Compound => Opened::Compound,
            Open::Redirs => Opened::Redirs,
        }
    }
}

/// An input, and how many bytes of it were read.
#[derive(Drop)]
pub struct Input {
    pub(crate) text: Bytes,
    pub(crate) place: usize,
}

/// Where outputs go.
#[derive(Clone, Copy)]
pub struct Outputs {
    pub(crate) out: Target,
    pub(crate) err: Target,
}

/// One of what is open, with what its end brings back.
#[derive(Drop)]
pub struct Layer {
    pub(crate) kind: Opened,
    pub(crate) outputs: Option<Outputs>,
    pub(crate) input: Option<Input>,
    pub(crate) loops: Option<usize>,
    pub(crate) args: Option<Args>,
}
