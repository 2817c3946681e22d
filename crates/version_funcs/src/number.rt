ghost use Rattle.std.specs.Prelude.{◌≡◌, ◌≤◌, ◌^◌, true, min};
ghost use Rattle.std.specs.List.{list_all};
ghost use Rattle.byte_class.specs.Class.{is_digit, is_zero};
ghost use Rattle.version_funcs.specs.Byte.{after_while};
ghost use Rattle.version_funcs.specs.Compared.{digits_order};
ghost use Rattle.version_funcs.specs.Number.{number, number_order};

use crate::class::{Class, split_run};
use std::cmp::Ordering;

// The digits without the zeros that they begin with.
fn significant(digits: &[u8]) -> &[u8]
    ensures { result.now ≡ after_while is_zero digits.now }
{
    split_run(Class::Zero, digits).1
}

// Which of two numbers is greater, by their digits.
pub(crate) fn compare_numbers(a: &[u8], b: &[u8]) -> Ordering
    ensures texts { result ≡ digits_order a.now b.now }
    ensures numbers { list_all is_digit a.now ≡ true → list_all is_digit b.now ≡ true → result ≡ number_order a.now b.now }
{
    let a = significant(a);
    let b = significant(b);
    a.len().cmp(&b.len()).then(a.cmp(b))
}

// The number that these digits write, or `most` where it is above that.
pub(crate) fn number_up_to(most: u128, digits: &[u8]) -> u128
    requires digits { list_all is_digit digits.now ≡ true }
    requires most { most ≤ 2 ^ 64 }
    ensures { result ≡ min (number digits.now) most }
{
    let mut number: u128 = 0;
    for digit in digits {
        number = (number * 10 + u128::from(*digit - b'0')).min(most);
    }
    number
}
