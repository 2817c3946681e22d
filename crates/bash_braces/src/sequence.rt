ghost use Rattle.std.specs.Prelude.{◌≡◌, ◌++◌, ◌+ℤ◌, drop, replicate, OnOk, FitsSigned, IfOk, MatchOption, None, Some};
ghost use Rattle.bash_braces.specs.Sequences.{begins_with_dots, between, cut, is_padded, letter, move, padded, sequence, sign, width};
ghost use Rattle.std.specs.Int.{w64};

use byte_class::is_letter;
use eb_bytes::{Bytes, Memory, decimal};
use signed_numbers::read_signed;
use std::alloc::Global;

// How a sequence's texts are written.
#[derive(Clone, Copy)]
pub(crate) enum Form {
    Letters,
    // Numbers of at least this width.
    Numbers(usize),
}

// From the first number, or the first letter's byte, towards the last.
#[derive(Clone, Copy)]
pub(crate) struct Sequence {
    pub(crate) from: i64,
    pub(crate) to: i64,
    // The increment, without its sign.
    pub(crate) apart: u64,
    pub(crate) form: Form,
}

fn begins_with_dots(text: &[u8]) -> bool
    ensures { result ≡ begins_with_dots text.now }
{
    match text {
        [b'.', b'.', ..] => true,
        _ => false,
    }
}

// The text without its first two bytes.
fn after_dots(text: &[u8]) -> &[u8]
    ensures { result.now ≡ drop 2 text.now }
{
    match text {
        [_, _, rest @ ..] => rest,
        _ => &[],
    }
}

// What stands before and after the first `..`.
#[tactic(auto, using(crate::proofs::Cutting::cut_more, crate::proofs::Cutting::cut_here))]
fn cut(text: &[u8]) -> Option<(&[u8], &[u8])>
    ensures { MatchOption result (cut text.now ≡ None) (λ p. cut text.now ≡ Some (p.0.now, p.1.now)) }
{
    for index in 0..text.len() {
        if begins_with_dots(&text[index..]) {
            return Some((&text[..index], after_dots(&text[index..])));
        }
    }
    None
}

// Whether a number begins with a zero, after its sign if it has one, and has more digits.
fn is_padded(text: &[u8]) -> bool
    ensures { result ≡ is_padded text.now }
{
    let signs = match text.first() {
        Some(b'-' | b'+') => 1,
        _ => 0,
    };
    let digits = &text[signs..];
    1 < digits.len() && digits[0] == b'0'
}

// How wide the numbers between two are, as these are written.
fn width(from: &[u8], to: &[u8]) -> usize
    ensures { result ≡ width from.now to.now }
{
    if is_padded(from) || is_padded(to) {
        from.len().max(to.len())
    } else {
        0
    }
}

// The letter that a text is.
fn letter(text: &[u8]) -> Option<u8>
    ensures { result ≡ letter text.now }
{
    match text {
        [byte] if is_letter(*byte) => Some(*byte),
        _ => None,
    }
}

// The sequence between two letters or two numbers.
fn between(from: &[u8], to: &[u8], increment: i64) -> Option<Sequence>
    ensures { result ≡ between from.now to.now (Some increment) }
{
    let apart = increment.unsigned_abs();
    if let (Some(first), Some(last)) = (letter(from), letter(to)) {
        return Some(Sequence {
            from: i64::from(first),
            to: i64::from(last),
            apart,
            form: Form::Letters,
        });
    }
    Some(Sequence {
        from: read_signed(from)?,
        to: read_signed(to)?,
        apart,
        form: Form::Numbers(width(from, to)),
    })
}

// The sequence that a text writes, `x..y` or `x..y..i`.
pub(crate) fn read_sequence(text: &[u8]) -> Option<Sequence>
    ensures { result ≡ sequence text.now }
{
    let (from, rest) = cut(text)?;
    match cut(rest) {
        None => between(from, rest, 1),
        Some((to, increment)) => between(from, to, read_signed(increment)?),
    }
}

// The sign that is written before a number's digits.
fn sign(alloc: Global, value: i64) -> Result<Bytes, Memory>
    ensures { IfOk result (λ text. text ≡ sign value) }
{
    if value < 0 {
        Bytes::from_slice(alloc, b"-")
    } else {
        Ok(Bytes::new(alloc))
    }
}

fn push_zeros(text: &mut Bytes, count: usize) -> Result<(), Memory>
    ensures { OnOk result (text.new ≡ text.old ++ replicate count 48) }
{
    let mut left = count;
    while 0 < left {
        left -= 1;
        text.push(b'0')?;
    }
    Ok(())
}

// A number's text, with zeros between its sign and its digits up to a width.
fn padded(alloc: Global, width: usize, value: i64) -> Result<Bytes, Memory>
    ensures { IfOk result (λ text. text ≡ padded width value) }
{
    let digits = decimal(alloc, value.unsigned_abs())?;
    let mut text = sign(alloc, value)?;
    let zeros = width
        .saturating_sub(text.len())
        .saturating_sub(digits.len());
    push_zeros(&mut text, zeros)?;
    text.extend(digits.as_slice())?;
    Ok(text)
}

// The number so far from this one, below it or above.
fn moved(value: i64, far: u64, falls: bool) -> i64
    requires { FitsSigned w64 (value +ℤ move falls far) }
    ensures { result ≡ value +ℤ move falls far }
{
    let sum = if falls {
        i128::from(value) - i128::from(far)
    } else {
        i128::from(value) + i128::from(far)
    };
    sum as i64
}

impl Form {
    ghost use Rattle.bash_braces.specs.Sequences.{text};

    fn text(self, alloc: Global, value: i64) -> Result<Bytes, Memory>
        ensures { IfOk result (λ t. t ≡ text self value) }
    {
        match self {
            Form::Letters => Bytes::from_slice(alloc, &[(value.unsigned_abs() % 256) as u8]),
            Form::Numbers(width) => padded(alloc, width, value),
        }
    }
}

impl Sequence {
    ghost use Rattle.bash_braces.specs.Sequences.{falls, step, steps, texts};

    // How far apart the numbers are.
    fn step(&self) -> u64
        ensures { result ≡ step self.now }
    {
        self.apart.max(1)
    }

    fn falls(&self) -> bool
        ensures { result ≡ falls self.now }
    {
        self.to < self.from
    }

    // How many numbers follow the first.
    pub(crate) fn steps(&self) -> u64
        ensures { result ≡ steps self.now }
    {
        self.to.abs_diff(self.from) / self.step()
    }

    // What the sequence stands for.
    pub(crate) fn texts(&self, alloc: Global) -> Result<Vec<Bytes>, Memory>
        ensures { IfOk result (λ list. list.items ≡ texts self.now) }
    {
        let step = self.step();
        let mut value = self.from;
        let mut left = self.to.abs_diff(self.from);
        let mut all = Vec::new(alloc);
        all.push(self.form.text(alloc, value)?)?;
        while step <= left {
            left -= step;
            value = moved(value, step, self.falls());
            all.push(self.form.text(alloc, value)?)?;
        }
        Ok(all)
    }
}
