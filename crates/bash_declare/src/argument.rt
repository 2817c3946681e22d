use bash_assign::Assignment;
use eb_bytes::Bytes;
use eb_syntax::DeclName;

/// An argument of a declaration, expanded.
#[derive(Drop)]
pub enum Argument {
    /// A word that assigns nothing.
    Said(Bytes),
    /// An assignment.
    Assigns(Assignment),
}

/// A declaration, expanded.
#[derive(Drop)]
pub struct Declaration<'a> {
    /// Which it is.
    pub name: DeclName,
    /// The words before all arguments that begin with a sign, each with letters.
    pub options: &'a [Bytes],
    /// The arguments.
    pub arguments: Vec<Argument>,
}
