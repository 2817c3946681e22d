ghost use Rattle.std.specs.Prelude.{◌≡◌};
ghost use Rattle.bash_cond.specs.Operators.{asks as asks_of, file_operator, is_before as is_before_of, stand};

use eb_syntax::BinOp;

/// What an operator with two operands asks.
#[derive(Clone, Copy)]
pub enum Question {
    /// Whether the left text is the right one: `=` and `==`.
    Same,
    /// Whether it is not: `!=`.
    Different,
    /// Whether the left text comes first: `<`.
    Before,
    /// Whether the right text comes first: `>`.
    After,
    /// How two numbers stand to each other.
    Numbers(Relation),
    /// How two files do.
    Files(FileRelation),
}

/// How two numbers stand to each other.
#[derive(Clone, Copy)]
pub enum Relation {
    /// `-eq`
    Equal,
    /// `-ne`
    NotEqual,
    /// `-lt`
    Less,
    /// `-le`
    AtMost,
    /// `-gt`
    Greater,
    /// `-ge`
    AtLeast,
}

/// How two files stand to each other.
#[derive(Clone, Copy)]
pub enum FileRelation {
    /// `-nt`
    Newer,
    /// `-ot`
    Older,
    /// `-ef`
    Same,
}

/// What an operator asks.
pub fn asks(op: BinOp) -> Question
    ensures { result ≡ asks_of op }
{
    match op {
        BinOp::DoubleEqual | BinOp::Equal => Question::Same,
        BinOp::NotEqual => Question::Different,
        BinOp::Before => Question::Before,
        BinOp::After => Question::After,
        BinOp::NumberEqual => Question::Numbers(Relation::Equal),
        BinOp::NumberNotEqual => Question::Numbers(Relation::NotEqual),
        BinOp::NumberLess => Question::Numbers(Relation::Less),
        BinOp::NumberAtMost => Question::Numbers(Relation::AtMost),
        BinOp::NumberGreater => Question::Numbers(Relation::Greater),
        BinOp::NumberAtLeast => Question::Numbers(Relation::AtLeast),
        BinOp::NewerFile => Question::Files(FileRelation::Newer),
        BinOp::OlderFile => Question::Files(FileRelation::Older),
        BinOp::SameFile => Question::Files(FileRelation::Same),
    }
}

impl Relation {
    /// Whether the numbers stand so to each other.
    pub fn holds(self, left: i64, right: i64) -> bool
        ensures { result ≡ stand self left right }
    {
        match self {
            Relation::Equal => left == right,
            Relation::NotEqual => left != right,
            Relation::Less => left < right,
            Relation::AtMost => left <= right,
            Relation::Greater => left > right,
            Relation::AtLeast => left >= right,
        }
    }
}

impl FileRelation {
    /// The operator, as it is written.
    pub fn operator(self) -> &'static [u8]
        ensures { result.now ≡ file_operator self }
    {
        match self {
            FileRelation::Newer => b"-nt".as_slice(),
            FileRelation::Older => b"-ot".as_slice(),
            FileRelation::Same => b"-ef".as_slice(),
        }
    }
}

/// Whether the first text comes before the second one, in the order of their bytes: `<`.
pub fn is_before(first: &[u8], second: &[u8]) -> bool
    ensures { result ≡ is_before_of first.now second.now }
{
    first.cmp(second).is_lt()
}
