ghost use Rattle.std.specs.Prelude.{◌≡◌};
ghost use Rattle.version_funcs.specs.Operators.{holds, operator_named as operator_of_name};

use std::cmp::Ordering;

// A test of two versions.
#[derive(Clone, Copy)]
pub(crate) enum Operator {
    // `-eq`
    Equal,
    // `-ne`
    NotEqual,
    // `-gt`
    Greater,
    // `-ge`
    NotLess,
    // `-lt`
    Less,
    // `-le`
    NotGreater,
}

impl Operator {
    // Whether versions that compare so pass the test.
    pub(crate) fn holds(self, order: Ordering) -> bool
        ensures { result ≡ holds self order }
    {
        match self {
            Operator::Equal => order.is_eq(),
            Operator::NotEqual => order.is_ne(),
            Operator::Greater => order.is_gt(),
            Operator::NotLess => order.is_ge(),
            Operator::Less => order.is_lt(),
            Operator::NotGreater => order.is_le(),
        }
    }
}

// The operator of this name, if there is one.
pub(crate) fn operator_named(name: &[u8]) -> Option<Operator>
    ensures { result ≡ operator_of_name name.now }
{
    if name == b"-eq".as_slice() {
        Some(Operator::Equal)
    } else if name == b"-ne".as_slice() {
        Some(Operator::NotEqual)
    } else if name == b"-gt".as_slice() {
        Some(Operator::Greater)
    } else if name == b"-ge".as_slice() {
        Some(Operator::NotLess)
    } else if name == b"-lt".as_slice() {
        Some(Operator::Less)
    } else if name == b"-le".as_slice() {
        Some(Operator::NotGreater)
    } else {
        None
    }
}
