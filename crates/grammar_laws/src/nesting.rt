ghost use Rattle.std.specs.Prelude.{◌≡◌};
ghost use Rattle.grammar_laws.specs.Nestings.{number_of};

/// What opens a nesting on the level of words, or may hold one. Where it has no reading, its bytes may be taken another
/// way.
#[derive(Clone, Copy)]
pub enum Nesting {
    /// An extended group: `?(`, `*(`, `+(`, `@(` or `!(`
    Group,
    /// `"`
    DoubleQuotes,
    /// `[` of a subscript
    Subscript,
    /// `$((`, and whether it stands inside double quotes or a here-document
    Arithmetic { quoted: bool },
    /// `$(`
    Command,
    /// `${`, and whether it stands inside double quotes or a here-document
    Parameter { quoted: bool },
    /// A backquote
    Backquotes,
    /// `<(` or `>(`
    Process,
    /// `(` of a regular expression
    RegexGroup,
    /// What an assignment begins with: a name, perhaps a subscript, and `=` or `+=`
    AssignHead,
}

impl Nesting {
    /// A number for each, by which they are told apart.
    pub fn number(self) -> u8
        ensures { result ≡ number_of self }
    {
        match self {
            Nesting::Group => 0,
            Nesting::DoubleQuotes => 1,
            Nesting::Subscript => 2,
            Nesting::Arithmetic { quoted: false } => 3,
            Nesting::Arithmetic { quoted: true } => 4,
            Nesting::Command => 5,
            Nesting::Parameter { quoted: false } => 6,
            Nesting::Parameter { quoted: true } => 7,
            Nesting::Backquotes => 8,
            Nesting::Process => 9,
            Nesting::RegexGroup => 10,
            Nesting::AssignHead => 11,
        }
    }
}
