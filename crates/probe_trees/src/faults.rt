use eb_bytes::{Bytes, read_decimal};
use probe_base::{Answer, Fault, read_text};
use shell_state::{Fault as ScriptFault, fault_text};
use std::alloc::Global;

/// `fault NAME [FIELD]..`: the text of the fault of a script that has this name and these fields. A field that is a
/// number is written in decimal.
pub fn fault(fields: &[&[u8]], answer: &mut Answer) -> Result<(), Fault> {
    let fault = read_fault(answer.alloc(), fields)?;
    let text = fault_text(answer.alloc(), &fault)?;
    answer.text(text.as_slice());
    Ok(())
}

fn read_fault(alloc: Global, fields: &[&[u8]]) -> Result<ScriptFault, Fault> {
    match fields {
        [name] => bare_fault(name),
        [name, field] => match read_number(field) {
            Some(number) => number_fault(name, number),
            None => text_fault(name, read_text(alloc, field)?),
        },
        [name, text, field] => two_fields(alloc, name, text, field),
        _ => Err(Fault::NoRequest),
    }
}

fn two_fields(alloc: Global, name: &[u8], text: &[u8], field: &[u8]) -> Result<ScriptFault, Fault> {
    let text = read_text(alloc, text)?;
    match read_number(field) {
        Some(number) => text_and_number_fault(name, text, number),
        None => texts_fault(name, text, read_text(alloc, field)?),
    }
}

fn read_number(field: &[u8]) -> Option<u32> {
    u32::try_from(read_decimal(field)?).ok()
}

fn bare_fault(name: &[u8]) -> Result<ScriptFault, Fault> {
    match name {
        b"FileTooLarge" => Ok(ScriptFault::FileTooLarge),
        b"StepsSpent" => Ok(ScriptFault::StepsSpent),
        b"DepthLimit" => Ok(ScriptFault::DepthLimit),
        b"ValueSize" => Ok(ScriptFault::ValueSize),
        b"TotalSize" => Ok(ScriptFault::TotalSize),
        b"BraceCount" => Ok(ScriptFault::BraceCount),
        b"PatternDeep" => Ok(ScriptFault::PatternDeep),
        b"RegexRefused" => Ok(ScriptFault::RegexRefused),
        b"ExportOutside" => Ok(ScriptFault::ExportOutside),
        b"SlotMissing" => Ok(ScriptFault::SlotMissing),
        b"EntryTooLarge" => Ok(ScriptFault::EntryTooLarge),
        _ => Err(Fault::NoRequest),
    }
}

fn number_fault(name: &[u8], number: u32) -> Result<ScriptFault, Fault> {
    match name {
        b"SyntaxRefused" => Ok(ScriptFault::SyntaxRefused(number)),
        b"SyntaxDeep" => Ok(ScriptFault::SyntaxDeep(number)),
        b"EvalRefused" => Ok(ScriptFault::EvalRefused(number)),
        b"EvalDeep" => Ok(ScriptFault::EvalDeep(number)),
        _ => Err(Fault::NoRequest),
    }
}

fn text_fault(name: &[u8], text: Bytes) -> Result<ScriptFault, Fault> {
    match name {
        b"NameBad" => Ok(ScriptFault::NameBad(text)),
        b"EapiUnknown" => Ok(ScriptFault::EapiUnknown(text)),
        b"LocalOutside" => Ok(ScriptFault::LocalOutside(text)),
        b"Readonly" => Ok(ScriptFault::Readonly(text)),
        b"ArithSyntax" => Ok(ScriptFault::ArithSyntax(text)),
        b"ArithDivZero" => Ok(ScriptFault::ArithDivZero(text)),
        b"ArithNegative" => Ok(ScriptFault::ArithNegative(text)),
        b"ArithNesting" => Ok(ScriptFault::ArithNesting(text)),
        b"EclassBadName" => Ok(ScriptFault::EclassBadName(text)),
        b"EclassMissing" => Ok(ScriptFault::EclassMissing(text)),
        b"EclassTooLarge" => Ok(ScriptFault::EclassTooLarge(text)),
        b"ExportMissing" => Ok(ScriptFault::ExportMissing(text)),
        b"Die" => Ok(ScriptFault::Die(text)),
        b"PhaseOnly" => Ok(ScriptFault::PhaseOnly(text)),
        name => command_fault(name, text),
    }
}

// The faults of one text that commands and expansions have.
fn command_fault(name: &[u8], text: Bytes) -> Result<ScriptFault, Fault> {
    match name {
        b"CommandRefused" => Ok(ScriptFault::CommandRefused(text)),
        b"Unsupported" => Ok(ScriptFault::Unsupported(text)),
        b"RedirectRefused" => Ok(ScriptFault::RedirectRefused(text)),
        b"FileTest" => Ok(ScriptFault::FileTest(text)),
        b"BadTest" => Ok(ScriptFault::BadTest(text)),
        b"BadUse" => Ok(ScriptFault::BadUse(text)),
        b"BadName" => Ok(ScriptFault::BadName(text)),
        b"BadSubscript" => Ok(ScriptFault::BadSubscript(text)),
        b"BadSubstitution" => Ok(ScriptFault::BadSubstitution(text)),
        b"BadRange" => Ok(ScriptFault::BadRange(text)),
        b"BadVersion" => Ok(ScriptFault::BadVersion(text)),
        b"BadOperator" => Ok(ScriptFault::BadOperator(text)),
        b"GlobFailed" => Ok(ScriptFault::GlobFailed(text)),
        _ => Err(Fault::NoRequest),
    }
}

fn texts_fault(name: &[u8], first: Bytes, second: Bytes) -> Result<ScriptFault, Fault> {
    match name {
        b"BadOption" => Ok(ScriptFault::BadOption(first, second)),
        b"UnsetParameter" => Ok(ScriptFault::UnsetParameter(first, second)),
        b"EapiMismatch" => Ok(ScriptFault::EapiMismatch(first, second)),
        _ => Err(Fault::NoRequest),
    }
}

fn text_and_number_fault(name: &[u8], text: Bytes, number: u32) -> Result<ScriptFault, Fault> {
    match name {
        b"EclassRefused" => Ok(ScriptFault::EclassRefused(text, number)),
        b"EclassDeep" => Ok(ScriptFault::EclassDeep(text, number)),
        b"DepBad" => Ok(ScriptFault::DepBad(text, number)),
        _ => Err(Fault::NoRequest),
    }
}
