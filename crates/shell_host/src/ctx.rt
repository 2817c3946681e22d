use eb_bytes::Bytes;
use shell_state::Opts;
use shell_vars::Vars;

/// What a word is expanded by, and what a test looks at.
#[derive(Drop)]
pub struct Ctx<'a> {
    /// The variables. An expansion may assign to them.
    pub vars: &'a mut Vars,
    /// The positional parameters, from the first.
    pub args: &'a [Bytes],
    /// The options.
    pub opts: Opts,
    /// The status of the command before.
    pub status: u8,
}
