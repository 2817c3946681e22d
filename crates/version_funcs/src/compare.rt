ghost use Rattle.std.specs.Prelude.{◌≡◌, None, Some, Ok, Err, drop};
ghost use Rattle.std.specs.Cmp.Lexicographic.{slice_cmp};
ghost use Rattle.version_funcs.specs.declared.operator.Operator.{Operator as TheOperator};
ghost use Rattle.version_funcs.specs.Compared.{component_text_order, digits_order, longer_text_order, suffix_text_order, suffix_texts_order};
ghost use Rattle.version_funcs.specs.Operators.{holds, operator_named as operator_of_name};
ghost use Rattle.version_funcs.specs.Order.{version_order, without_last_zeros as without_last_zeros_text, begins_with_zero as begins_with_zero_text};
ghost use Rattle.version_funcs.specs.Version.{Version, IsVersionText, IsWellFormed, spelling};
ghost use Rattle.version_funcs.specs.Walk.{after_marks};

use crate::class::next_piece;
use crate::error::VerErr;
use crate::number::compare_numbers;
use crate::operator::operator_named;
use crate::read::{read_suffix, read_version, version_parts};
use std::cmp::Ordering;

/// How the first version compares with the second one (Package Manager Specification, "Version Comparison"). Takes no
/// memory.
pub fn compare_versions(a: &[u8], b: &[u8]) -> Ordering
    requires first_is_a_version { IsVersionText a.now }
    requires second_is_a_version { IsVersionText b.now }
    ensures { (v w : Version) → IsWellFormed v → IsWellFormed w → a.now ≡ spelling v → b.now ≡ spelling w → result ≡ version_order v w }
{
    let (v, w) = (version_parts(a), version_parts(b));
    compare_numbers(v.first, w.first)
        .then(compare_later(v.later, w.later))
        .then(v.letter.cmp(&w.letter))
        .then(compare_suffixes(v.suffixes, w.suffixes))
        .then(compare_revisions(v.revision, w.revision))
}

// Which of two lists of later components is greater.
fn compare_later(a: &[u8], b: &[u8]) -> Ordering
    ensures { result ≡ slice_cmp component_text_order (after_marks 46 a.now) (after_marks 46 b.now) }
{
    let (mut a_left, mut b_left) = (a, b);
    'components: loop {
        match (next_piece(b'.', a_left), next_piece(b'.', b_left)) {
            (None, None) => return Ordering::Equal,
            (None, Some(_)) => return Ordering::Less,
            (Some(_), None) => return Ordering::Greater,
            (Some((a_piece, a_rest)), Some((b_piece, b_rest))) => {
                let order = compare_components(a_piece, b_piece);
                if order.is_ne() {
                    return order;
                }
                a_left = a_rest;
                b_left = b_rest;
            }
        }
    }
}

// Which of two later components is greater.
fn compare_components(a: &[u8], b: &[u8]) -> Ordering
    ensures { result ≡ component_text_order a.now b.now }
{
    if begins_with_zero(a) || begins_with_zero(b) {
        without_last_zeros(a).cmp(without_last_zeros(b))
    } else {
        compare_numbers(a, b)
    }
}

// Whether the first digit is a zero.
fn begins_with_zero(text: &[u8]) -> bool
    ensures { result ≡ begins_with_zero_text text.now }
{
    match text {
        [] => false,
        [first, ..] => *first == b'0',
    }
}

// The text without the zeros at its end.
fn without_last_zeros(text: &[u8]) -> &[u8]
    ensures { result.now ≡ without_last_zeros_text text.now }
{
    let mut left = text;
    while let [front @ .., b'0'] = left {
        left = front;
    }
    left
}

// Which of two lists of suffixes is greater.
fn compare_suffixes(a: &[u8], b: &[u8]) -> Ordering
    ensures { result ≡ suffix_texts_order (after_marks 95 a.now) (after_marks 95 b.now) }
{
    let (mut a_left, mut b_left) = (a, b);
    'suffixes: loop {
        match (next_piece(b'_', a_left), next_piece(b'_', b_left)) {
            (None, None) => return Ordering::Equal,
            (None, Some((b_piece, _))) => return compare_longer(b_piece).reverse(),
            (Some((a_piece, _)), None) => return compare_longer(a_piece),
            (Some((a_piece, a_rest)), Some((b_piece, b_rest))) => {
                let order = compare_suffix(a_piece, b_piece);
                if order.is_ne() {
                    return order;
                }
                a_left = a_rest;
                b_left = b_rest;
            }
        }
    }
}

// Which of two suffixes is greater.
fn compare_suffix(a: &[u8], b: &[u8]) -> Ordering
    ensures { result ≡ suffix_text_order a.now b.now }
{
    match (read_suffix(a), read_suffix(b)) {
        (Some(a), Some(b)) => a
            .kind
            .rank()
            .cmp(&b.kind.rank())
            .then(compare_numbers(a.number, b.number)),
        _ => Ordering::Equal,
    }
}

// How a longer list of suffixes, whose next suffix is this one, compares with the shorter one.
fn compare_longer(piece: &[u8]) -> Ordering
    ensures { result ≡ longer_text_order piece.now }
{
    match read_suffix(piece) {
        Some(suffix) => suffix.kind.longer_order(),
        None => Ordering::Less,
    }
}

// Which of two revisions is greater, of which each has `-r` before its digits or is empty.
fn compare_revisions(a: &[u8], b: &[u8]) -> Ordering
    ensures { result ≡ digits_order (drop 2 a.now) (drop 2 b.now) }
{
    compare_numbers(revision_digits(a), revision_digits(b))
}

// The digits after `-r`, none where the text is empty.
fn revision_digits(revision: &[u8]) -> &[u8]
    ensures { result.now ≡ drop 2 revision.now }
{
    match revision {
        [_, _, digits @ ..] => digits,
        _ => &[],
    }
}

/// Whether the first version compares with the second one as the operator says: `-eq`, `-ne`, `-gt`, `-ge`, `-lt` or
/// `-le`, by the order of versions. Takes no memory.
///
/// # Errors
/// `BadOperator` where the operator is none of these, and else `BadVersion` where one of the texts is no version.
pub fn ver_test(a: &[u8], op: &[u8], b: &[u8]) -> Result<bool, VerErr>
    ensures ok { (operator : TheOperator) (v w : Version) → operator_of_name op.now ≡ Some operator → IsWellFormed v → IsWellFormed w → a.now ≡ spelling v → b.now ≡ spelling w → result ≡ Ok (holds operator (version_order v w)) }
    ensures bad_version { (operator : TheOperator) → operator_of_name op.now ≡ Some operator → ¬ (IsVersionText a.now × IsVersionText b.now) → result ≡ Err VerErr.BadVersion }
    ensures bad_operator { operator_of_name op.now ≡ None → result ≡ Err VerErr.BadOperator }
{
    let Some(operator) = operator_named(op) else {
        return Err(VerErr::BadOperator);
    };
    if !read_version(a) || !read_version(b) {
        return Err(VerErr::BadVersion);
    }
    Ok(operator.holds(compare_versions(a, b)))
}
