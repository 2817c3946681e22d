ghost use Rattle.std.specs.Prelude.{◌≡◌, ◌++◌, ◌∷◌, decimal as decimal_text, IfOk, OnOk};
ghost use Rattle.shell_state.specs.Faults.{row, fault_text as text_of, fields_text, shown};
ghost use Rattle.shell_state.specs.Fields.{seen_fields};

use crate::fault::Fault;
use eb_bytes::{Bytes, Memory, decimal, join_words};
use std::alloc::Global;

// The name of a fault.
fn name(fault: &Fault) -> &'static [u8]
    ensures { result.now ≡ (row fault.now).0 }
{
    match fault {
        Fault::NameBad(_) => b"NameBad",
        Fault::FileTooLarge => b"FileTooLarge",
        Fault::EapiUnknown(_) => b"EapiUnknown",
        Fault::SyntaxRefused(_) => b"SyntaxRefused",
        Fault::SyntaxDeep(_) => b"SyntaxDeep",
        Fault::StepsSpent => b"StepsSpent",
        Fault::DepthLimit => b"DepthLimit",
        Fault::ValueSize => b"ValueSize",
        Fault::TotalSize => b"TotalSize",
        Fault::BraceCount => b"BraceCount",
        Fault::PatternDeep => b"PatternDeep",
        Fault::CommandRefused(_) => b"CommandRefused",
        Fault::Unsupported(_) => b"Unsupported",
        Fault::RedirectRefused(_) => b"RedirectRefused",
        Fault::RegexRefused => b"RegexRefused",
        Fault::FileTest(_) => b"FileTest",
        Fault::BadTest(_) => b"BadTest",
        Fault::BadUse(_) => b"BadUse",
        Fault::BadOption(_, _) => b"BadOption",
        Fault::BadName(_) => b"BadName",
        Fault::LocalOutside(_) => b"LocalOutside",
        Fault::Readonly(_) => b"Readonly",
        Fault::BadSubscript(_) => b"BadSubscript",
        Fault::BadSubstitution(_) => b"BadSubstitution",
        Fault::UnsetParameter(_, _) => b"UnsetParameter",
        Fault::GlobFailed(_) => b"GlobFailed",
        Fault::ArithSyntax(_) => b"ArithSyntax",
        Fault::ArithDivZero(_) => b"ArithDivZero",
        Fault::ArithNegative(_) => b"ArithNegative",
        Fault::ArithNesting(_) => b"ArithNesting",
        Fault::EvalRefused(_) => b"EvalRefused",
        Fault::EvalDeep(_) => b"EvalDeep",
        Fault::EclassBadName(_) => b"EclassBadName",
        Fault::EclassMissing(_) => b"EclassMissing",
        Fault::EclassTooLarge(_) => b"EclassTooLarge",
        Fault::EclassRefused(_, _) => b"EclassRefused",
        Fault::EclassDeep(_, _) => b"EclassDeep",
        Fault::ExportOutside => b"ExportOutside",
        Fault::ExportMissing(_) => b"ExportMissing",
        Fault::Die(_) => b"Die",
        Fault::PhaseOnly(_) => b"PhaseOnly",
        Fault::BadRange(_) => b"BadRange",
        Fault::BadVersion(_) => b"BadVersion",
        Fault::BadOperator(_) => b"BadOperator",
        Fault::EapiMismatch(_, _) => b"EapiMismatch",
        Fault::SlotMissing => b"SlotMissing",
        Fault::DepBad(_, _) => b"DepBad",
        Fault::EntryTooLarge => b"EntryTooLarge",
    }
}

// The fields of a fault, in the order in which they are printed.
enum Fields<'a> {
    None,
    Text(&'a Bytes),
    Texts(&'a Bytes, &'a Bytes),
    Number(u32),
    TextAndNumber(&'a Bytes, u32),
}

fn fields_of(fault: &Fault) -> Fields<'_>
    ensures { seen_fields result ≡ (row fault.now).1 }
{
    match fault {
        Fault::FileTooLarge
        | Fault::StepsSpent
        | Fault::DepthLimit
        | Fault::ValueSize
        | Fault::TotalSize
        | Fault::BraceCount
        | Fault::PatternDeep
        | Fault::RegexRefused
        | Fault::ExportOutside
        | Fault::SlotMissing
        | Fault::EntryTooLarge => Fields::None,
        Fault::NameBad(text)
        | Fault::EapiUnknown(text)
        | Fault::CommandRefused(text)
        | Fault::Unsupported(text)
        | Fault::RedirectRefused(text)
        | Fault::FileTest(text)
        | Fault::BadTest(text)
        | Fault::BadUse(text)
        | Fault::BadName(text)
        | Fault::LocalOutside(text)
        | Fault::Readonly(text)
        | Fault::BadSubscript(text)
        | Fault::BadSubstitution(text)
        | Fault::GlobFailed(text)
        | Fault::ArithSyntax(text)
        | Fault::ArithDivZero(text)
        | Fault::ArithNegative(text)
        | Fault::ArithNesting(text)
        | Fault::EclassBadName(text)
        | Fault::EclassMissing(text)
        | Fault::EclassTooLarge(text)
        | Fault::ExportMissing(text)
        | Fault::Die(text)
        | Fault::PhaseOnly(text)
        | Fault::BadRange(text)
        | Fault::BadVersion(text)
        | Fault::BadOperator(text) => Fields::Text(text),
        Fault::BadOption(first, second)
        | Fault::UnsetParameter(first, second)
        | Fault::EapiMismatch(first, second) => Fields::Texts(first, second),
        Fault::SyntaxRefused(number)
        | Fault::SyntaxDeep(number)
        | Fault::EvalRefused(number)
        | Fault::EvalDeep(number) => Fields::Number(*number),
        Fault::EclassRefused(text, number)
        | Fault::EclassDeep(text, number)
        | Fault::DepBad(text, number) => Fields::TextAndNumber(text, *number),
    }
}

// Appends a text as a line shows it after one blank: its words joined by one blank, or a hyphen where it has none.
fn append_words(alloc: Global, to: &mut Bytes, text: &[u8]) -> Result<(), Memory>
    ensures { OnOk result (to.new ≡ to.old ++ 32 ∷ shown text.now) }
{
    let words = join_words(alloc, text)?;
    to.extend(b" ")?;
    if words.is_empty() {
        to.extend(b"-")
    } else {
        to.extend(words.as_slice())
    }
}

// Appends a number in decimal after one blank.
fn append_number(alloc: Global, to: &mut Bytes, number: u32) -> Result<(), Memory>
    ensures { OnOk result (to.new ≡ to.old ++ 32 ∷ decimal_text number) }
{
    let digits = decimal(alloc, u64::from(number))?;
    to.extend(b" ")?;
    to.extend(digits.as_slice())
}

fn append_fields(alloc: Global, to: &mut Bytes, fields: Fields<'_>) -> Result<(), Memory>
    ensures { OnOk result (to.new ≡ to.old ++ fields_text (seen_fields fields.entry)) }
{
    match fields {
        Fields::None => Ok(()),
        Fields::Text(text) => append_words(alloc, to, text.as_slice()),
        Fields::Texts(first, second) => {
            append_words(alloc, to, first.as_slice())?;
            append_words(alloc, to, second.as_slice())
        }
        Fields::Number(number) => append_number(alloc, to, number),
        Fields::TextAndNumber(text, number) => {
            append_words(alloc, to, text.as_slice())?;
            append_number(alloc, to, number)
        }
    }
}

/// A fault's text: its name, then each of its fields after one blank. A text is shown by its words with one blank
/// between two, or as `-` where it has none; a number in decimal.
///
/// # Errors
/// `Memory` where there is no room for it.
pub fn fault_text(alloc: Global, fault: &Fault) -> Result<Bytes, Memory>
    ensures { IfOk result (λ text. text ≡ text_of fault.now) }
{
    let mut text = Bytes::from_slice(alloc, name(fault))?;
    append_fields(alloc, &mut text, fields_of(fault))?;
    Ok(text)
}
