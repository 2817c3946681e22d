use eb_bytes::Bytes;
use thiserror::Error;

/// Why a run ends before its script does, or why an ebuild has no entry. The fields of each stand in the order in
/// which [`fault_text`](crate::fault_text) prints them.
#[derive(Debug, Drop, Error)]
pub enum Fault {
    /// The first part of an ebuild's path that is malformed: `category`, `package` or `file`.
    #[error("a malformed name in the path of an ebuild")]
    NameBad(Bytes),
    /// An ebuild has more bytes than it may have.
    #[error("the ebuild is too large")]
    FileTooLarge,
    /// The EAPI that an ebuild names is none that there is: that text.
    #[error("an unknown EAPI")]
    EapiUnknown(Bytes),
    /// An ebuild is no script: the line in which the first command that cannot be read begins.
    #[error("a syntax error in the ebuild")]
    SyntaxRefused(u32),
    /// An ebuild opens more nestings than a script may: the line in which the first one too many begins.
    #[error("the ebuild is nested too deeply")]
    SyntaxDeep(u32),

    /// A step was to be spent, and none was left.
    #[error("out of steps")]
    StepsSpent,
    /// More was to be open at once than may be.
    #[error("too much is open at once")]
    DepthLimit,
    /// One text would have more bytes than it may have.
    #[error("a text is too large")]
    ValueSize,
    /// All variables together, or one list of fields, would have more bytes than they may have.
    #[error("the variables or the fields are too large")]
    TotalSize,
    /// The braces of one word give more words than they may.
    #[error("braces give too many words")]
    BraceCount,
    /// Groups of a pattern are nested more deeply than they may be.
    #[error("groups of a pattern are nested too deeply")]
    PatternDeep,

    /// No function, builtin or command has this name.
    #[error("a command that may not run")]
    CommandRefused(Bytes),
    /// A form of the language, or a variable, that is not supported: what it is.
    #[error("a form that is not supported")]
    Unsupported(Bytes),
    /// A redirection to, or from, what may not be opened: its target.
    #[error("a redirection that is not allowed")]
    RedirectRefused(Bytes),
    /// A text was to be matched with a regular expression.
    #[error("regular expressions are not supported")]
    RegexRefused,
    /// A file was to be looked at: the test's operator.
    #[error("tests of files are not supported")]
    FileTest(Bytes),
    /// The words of a test are no test, or a text in it is no number: the first word that does not fit.
    #[error("a malformed condition")]
    BadTest(Bytes),
    /// The words of a builtin or a command are not what it takes: its name.
    #[error("a command was used wrongly")]
    BadUse(Bytes),
    /// A builtin has no such option: the builtin, and the option.
    #[error("a command has no such option")]
    BadOption(Bytes, Bytes),
    /// A text that was to be a name is none.
    #[error("not a name")]
    BadName(Bytes),
    /// A name was to be local where no call is open.
    #[error("local outside of a function")]
    LocalOutside(Bytes),
    /// A readonly name was to change.
    #[error("readonly variable")]
    Readonly(Bytes),
    /// No element of the name can have this subscript.
    #[error("bad array subscript")]
    BadSubscript(Bytes),
    /// A parameter cannot be expanded so: its name.
    #[error("bad substitution")]
    BadSubstitution(Bytes),
    /// A parameter that must have a value has none: its name, and the message that the script gives.
    #[error("an unset parameter")]
    UnsetParameter(Bytes, Bytes),
    /// A pattern matches no path, and the script asked that one does.
    #[error("no path matches")]
    GlobFailed(Bytes),
    /// An arithmetic text is no expression.
    #[error("syntax error in expression")]
    ArithSyntax(Bytes),
    /// An arithmetic text divides by 0.
    #[error("division by 0")]
    ArithDivZero(Bytes),
    /// An arithmetic text has an exponent below 0.
    #[error("exponent less than 0")]
    ArithNegative(Bytes),
    /// An arithmetic text opens more nestings than it may.
    #[error("expression nested too deeply")]
    ArithNesting(Bytes),
    /// The text of `eval` is no script: the line in which the first command that cannot be read begins.
    #[error("a syntax error in the text of eval")]
    EvalRefused(u32),
    /// The text of `eval` opens more nestings than a script may: the line in which the first one too many begins.
    #[error("the text of eval is nested too deeply")]
    EvalDeep(u32),

    /// No eclass can have this name.
    #[error("not a name of an eclass")]
    EclassBadName(Bytes),
    /// No repository has an eclass of this name.
    #[error("a missing eclass")]
    EclassMissing(Bytes),
    /// The eclass of this name has more bytes than it may have.
    #[error("the eclass is too large")]
    EclassTooLarge(Bytes),
    /// The eclass of this name is no script: its name, and the line in which the first command that cannot be read
    /// begins.
    #[error("a syntax error in the eclass")]
    EclassRefused(Bytes, u32),
    /// The eclass of this name opens more nestings than a script may: its name, and the line in which the first one too
    /// many begins.
    #[error("the eclass is nested too deeply")]
    EclassDeep(Bytes, u32),
    /// `EXPORT_FUNCTIONS` was called outside of an eclass.
    #[error("EXPORT_FUNCTIONS outside of an eclass")]
    ExportOutside,
    /// An eclass exports a function that is not defined: that function.
    #[error("an exported function that is missing")]
    ExportMissing(Bytes),

    /// `die` was called: its message.
    #[error("die was called")]
    Die(Bytes),
    /// A command that only phases may call was called while an ebuild was sourced: its name.
    #[error("a command of the phases alone")]
    PhaseOnly(Bytes),
    /// A word that is to be a range of version components is none.
    #[error("not a range of version components")]
    BadRange(Bytes),
    /// A word that is to be a version is none.
    #[error("not a version")]
    BadVersion(Bytes),
    /// A word that is to compare versions is no operator.
    #[error("not a version comparison operator")]
    BadOperator(Bytes),

    /// The EAPI that an ebuild is read by, and the different one that its variable EAPI has after its run.
    #[error("the variable EAPI differs from the EAPI that the ebuild names")]
    EapiMismatch(Bytes, Bytes),
    /// SLOT has no word after the run.
    #[error("no SLOT")]
    SlotMissing,
    /// The value of a key is not in its format: the key, and the number of the first word that does not fit, from 1.
    #[error("a malformed value")]
    DepBad(Bytes, u32),
    /// The entry has more bytes than it may have.
    #[error("the entry is too large")]
    EntryTooLarge,
}
