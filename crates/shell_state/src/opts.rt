/// The options of a shell that change what it does (Bash Reference Manual, "The Set Builtin", "The Shopt Builtin").
#[derive(Clone, Copy, Debug, PartialEq, Eq)]
pub struct Opts {
    /// `set -f`: a field with a pattern in it stays as it is.
    pub noglob: bool,
    /// A pattern that matches no path is a fault.
    pub failglob: bool,
    /// A field whose pattern matches no path goes.
    pub nullglob: bool,
    /// Patterns have extended groups.
    pub extglob: bool,
}
