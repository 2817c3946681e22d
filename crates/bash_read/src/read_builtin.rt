ghost use Rattle.std.specs.Prelude.{◌≡◌, ◌≢◌, ◌+◌, ◌≤◌, drop, if◌then◌else◌, length, map, Err, IfOk};
ghost use Rattle.std.specs.Option.{option_copied};
ghost use Rattle.bash_split.specs.Fields.{fields as fields_of_marks};
ghost use Rattle.shell_marks.specs.Marks.{unquoted};
ghost use Rattle.shell_vars.specs.Store.{kinds};
ghost use Rattle.shell_vars.specs.declared.value.Value.TheVariants as value;
ghost use Rattle.bash_assign.specs.Assignments.{sets};
ghost use Rattle.shell_state.specs.Outcome.{Tells};
ghost use Rattle.shell_state.specs.State.{State};
ghost use Rattle.shell_state.specs.declared.fault.Fault.{Fault};
ghost use Rattle.bash_read.specs.Lines.{line as line_of};
ghost use Rattle.bash_read.specs.Options.{Wrong, job};
ghost use Rattle.bash_read.specs.Read.{array_of, assigns_each, assigns_line, assigns_names, ifs_of as ifs_in, read as reads, takes};
ghost use Rattle.bash_read.specs.Seen.{seen_options};

use crate::line::take_line;
use crate::options::{Job, Options, read_words, refusal};
use crate::parts::{text_of, texts};
use bash_assign::{assign, set};
use bash_split::split;
use eb_bytes::{Bytes, Memory};
use shell_marks::Marked;
use shell_state::{Io, Stop};
use shell_vars::{Elements, Value, Vars};
use std::alloc::Global;

/// `read`: takes a line of the input and gives its fields to the names (Bash Reference Manual, "Bash Builtin Commands").
/// It answers the status 0, or 1 where the input ended before the delimiter. The options are `-r`, `-a NAME`, `-d TEXT`
/// and `-p TEXT`; the prompt is not printed. Nothing is spent.
///
/// # Errors
/// `BadUse` without the word of an option, `BadOption`, `BadName` where a word is no name: nothing is taken then. The
/// faults of giving a text or an array to a variable, where the names before it have their texts; and `Memory`.
#[tactic(auto, unfolding(crate::specs::Read::read), using(crate::proofs::Kept::takes_left))]
pub fn read(alloc: Global, words: &[Bytes], vars: &mut Vars, io: &mut Io) -> Result<u8, Stop>
    ensures means { (at : State) → at.store ≡ vars.old.present → at.io ≡ io.old →
        Tells result (reads words.now at) (record at { store = vars.new.present; io = io.new }) }
    ensures no_file { result ≢ Err Stop.Failed }
    ensures untaken { (why : Fault) → job words.now ≡ Wrong why → (io.new ≡ io.old) × (vars.new ≡ vars.old) }
    ensures outputs { io.new ≡ record io.old { place = io.new.place } }
    ensures saved { vars.new.saved ≡ vars.old.saved }
    ensures kinds { kinds vars.new.present ≡ kinds vars.old.present }
{
    match read_words(words) {
        Job::Reads(options, names) => take(alloc, &options, names, vars, io),
        Job::Refused(why) => Err(refusal(alloc, why)),
    }
}

// Takes a line, and gives it to the names.
fn take(
    alloc: Global,
    options: &Options<'_>,
    names: &[Bytes],
    vars: &mut Vars,
    io: &mut Io,
) -> Result<u8, Stop>
    ensures means { (at : State) → at.store ≡ vars.old.present → at.io ≡ io.old →
        Tells result (takes (seen_options options.now) names.now (line_of options.now.raw options.now.delimiter (drop io.old.place io.old.input)) at)
        (record at { store = vars.new.present; io = io.new }) }
    ensures no_file { result ≢ Err Stop.Failed }
    ensures outputs { io.new ≡ record io.old { place = io.new.place } }
    ensures saved { vars.new.saved ≡ vars.old.saved }
    ensures kinds { kinds vars.new.present ≡ kinds vars.old.present }
{
    let line = take_line(
        alloc,
        options.raw,
        options.delimiter,
        from(&io.input, io.place),
    )?;
    io.place = advanced(&io.input, io.place, line.taken);
    give_line(alloc, options.array, names, &line.marks, vars)?;
    Ok(status_of(line.ended))
}

fn status_of(ended: bool) -> u8
    ensures { result ≡ (if ended then 0 else 1) }
{
    if ended { 0 } else { 1 }
}

// The bytes of a text from this place on.
fn from(text: &Bytes, place: usize) -> &[u8]
    ensures { result.now ≡ drop place text.now }
{
    let text = text.as_slice();
    &text[place.min(text.len())..]
}

// The place after so many bytes more, of which there are none past the end.
#[tactic(auto, using(crate::proofs::Names::left_length))]
fn advanced(text: &Bytes, place: usize, taken: usize) -> usize
    requires within { taken ≤ length (drop place text.now) }
    ensures { result ≡ place + taken }
{
    if place < text.len() {
        place + taken
    } else {
        place
    }
}

// Gives a line to an array, or to names.
fn give_line(
    alloc: Global,
    array: Option<&[u8]>,
    names: &[Bytes],
    marks: &Marked,
    vars: &mut Vars,
) -> Result<(), Stop>
    ensures means { (at : State) → at.store ≡ vars.old.present →
        Tells result (assigns_line (ifs_in vars.old.present) marks.now (option_copied array.entry) names.now at)
        (record at { store = vars.new.present }) }
    ensures no_file { result ≢ Err Stop.Failed }
    ensures saved { vars.new.saved ≡ vars.old.saved }
    ensures kinds { kinds vars.new.present ≡ kinds vars.old.present }
{
    match array {
        Some(name) => give_fields(alloc, name, marks, vars),
        None => give_names(alloc, names, marks, vars),
    }
}

// The text of IFS, and blank, tab and newline where it has none.
fn ifs_of(alloc: Global, vars: &Vars) -> Result<Bytes, Memory>
    ensures { IfOk result (λ ifs. ifs ≡ ifs_in vars.now.present) }
{
    match vars.element(b"IFS", None) {
        Ok(Some(text)) => text.copy(alloc),
        Ok(None) | Err(_) => Bytes::from_slice(alloc, b" \t\n"),
    }
}

// Gives all fields to an array.
#[tactic(auto, using(bash_assign::proofs::Assigned::sets_left))]
fn give_fields(alloc: Global, name: &[u8], marks: &Marked, vars: &mut Vars) -> Result<(), Stop>
    ensures means { (at : State) → at.store ≡ vars.old.present →
        Tells result (sets name.now (value.Array (array_of (map unquoted (fields_of_marks (ifs_in vars.old.present) marks.now)))) at)
        (record at { store = vars.new.present }) }
    ensures no_file { result ≢ Err Stop.Failed }
    ensures saved { vars.new.saved ≡ vars.old.saved }
    ensures kinds { kinds vars.new.present ≡ kinds vars.old.present }
{
    let ifs = ifs_of(alloc, vars)?;
    let elements = field_texts(alloc, marks, ifs.as_slice())?;
    set(alloc, vars, name, Value::Array(elements))
}

// The texts of the fields, as the elements of an array.
fn field_texts(alloc: Global, marks: &Marked, ifs: &[u8]) -> Result<Elements, Memory>
    ensures { IfOk result (λ es. es ≡ array_of (map unquoted (fields_of_marks ifs.now marks.now))) }
{
    let fields = split(alloc, marks, ifs)?;
    elements(alloc, fields.as_slice())
}

fn elements(alloc: Global, fields: &[Marked]) -> Result<Elements, Memory>
    ensures { IfOk result (λ es. es ≡ array_of (map unquoted fields.now)) }
{
    let mut elements = Elements::new(alloc);
    for (index, field) in fields.iter().enumerate() {
        elements.insert(index as u64, field.unquoted(alloc)?)?;
    }
    Ok(elements)
}

// Gives the line to REPLY where there is no name, and else its parts to the names.
#[tactic(auto, using(crate::proofs::Kept::names_left, crate::proofs::Names::as_many_texts))]
fn give_names(alloc: Global, names: &[Bytes], marks: &Marked, vars: &mut Vars) -> Result<(), Stop>
    ensures means { (at : State) → at.store ≡ vars.old.present →
        Tells result (assigns_names (ifs_in vars.old.present) marks.now names.now at)
        (record at { store = vars.new.present }) }
    ensures no_file { result ≢ Err Stop.Failed }
    ensures saved { vars.new.saved ≡ vars.old.saved }
    ensures kinds { kinds vars.new.present ≡ kinds vars.old.present }
{
    let [_, others @ ..] = names else {
        let text = text_of(alloc, marks.as_slice())?;
        return assign(alloc, vars, b"REPLY", None, text);
    };
    let ifs = ifs_of(alloc, vars)?;
    let texts = texts(alloc, ifs.as_slice(), others.len(), marks.as_slice())?;
    give_each(alloc, names, texts.as_slice(), vars)
}

// Gives each name its text.
fn give_each(alloc: Global, names: &[Bytes], texts: &[Bytes], vars: &mut Vars) -> Result<(), Stop>
    requires as_many { length texts.now ≡ length names.now }
    ensures means { (at : State) → at.store ≡ vars.old.present →
        Tells result (assigns_each names.now texts.now at) (record at { store = vars.new.present }) }
    ensures no_file { result ≢ Err Stop.Failed }
    ensures saved { vars.new.saved ≡ vars.old.saved }
    ensures kinds { kinds vars.new.present ≡ kinds vars.old.present }
{
    for (index, name) in names.iter().enumerate() {
        let text = texts[index].copy(alloc)?;
        match assign(alloc, vars, name.as_slice(), None, text) {
            Ok(()) => {}
            Err(stopped) => return Err(stopped),
        }
    }
    Ok(())
}
