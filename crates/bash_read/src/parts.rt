ghost use Rattle.std.specs.Prelude.{◌≡◌, ◌≤◌, length, IfOk, not};
ghost use Rattle.std.specs.List.{prefix_len};
ghost use Rattle.shell_marks.specs.Marks.{unquoted};
ghost use Rattle.bash_read.specs.Parts.{after_blanks as after_blanks_of, after_field as after_field_of, after_separator as after_separator_of, blanks_at_end as blanks_at_end_of, field_length, first_field as first_field_of, is_field_mark, is_ifs_blank, is_separator_role, last_text as last_text_of, texts_for, trimmed as trimmed_of};
ghost use Rattle.bash_split.specs.Fields.{role};

use bash_split::{Ifs, Role, split};
use eb_bytes::{Bytes, Memory};
use shell_marks::{Mark, Marked};
use std::alloc::Global;

// The texts of so many names and one more, of which the last one takes the rest.
pub(crate) fn texts(
    alloc: Global,
    ifs: &[u8],
    others: usize,
    marks: &[Mark],
) -> Result<Vec<Bytes>, Memory>
    ensures { IfOk result (λ ts. ts.items ≡ texts_for ifs.now others marks.now) }
{
    let table = Ifs::new(ifs);
    let mut texts = Vec::new(alloc);
    let mut rest = marks;
    for _name in 0..others {
        texts.push(text_of(alloc, first_field(&table, rest))?)?;
        rest = after_field(&table, rest);
    }
    texts.push(last_text(alloc, ifs, rest)?)?;
    Ok(texts)
}

// The bytes of marks.
pub(crate) fn text_of(alloc: Global, marks: &[Mark]) -> Result<Bytes, Memory>
    ensures { IfOk result (λ t. t ≡ unquoted marks.now) }
{
    let mut copy = Marked::new(alloc);
    copy.append(marks)?;
    copy.unquoted(alloc)
}

// The text of the last name: the rest without IFS blanks round it, or, where that is one field and its delimiter, the
// field.
fn last_text(alloc: Global, ifs: &[u8], marks: &[Mark]) -> Result<Bytes, Memory>
    ensures { IfOk result (λ t. t ≡ last_text_of ifs.now marks.now) }
{
    let mut rest = Marked::new(alloc);
    rest.append(marks)?;
    let fields = split(alloc, &rest, ifs)?;
    match fields.as_slice() {
        [field] => field.unquoted(alloc),
        _ => text_of(alloc, trimmed(&Ifs::new(ifs), marks)),
    }
}

// The field that marks begin with, after their IFS blanks.
fn first_field<'a>(ifs: &Ifs<'_>, marks: &'a [Mark]) -> &'a [Mark]
    ensures { result.now ≡ first_field_of ifs.now marks.now }
{
    let rest = after_blanks(ifs, marks);
    &rest[..field_len(ifs, rest)]
}

// What is left after that field and its delimiter.
fn after_field<'a>(ifs: &Ifs<'_>, marks: &'a [Mark]) -> &'a [Mark]
    ensures { result.now ≡ after_field_of ifs.now marks.now }
{
    let rest = after_blanks(ifs, marks);
    let delimiter = &rest[field_len(ifs, rest)..];
    after_separator(ifs, after_blanks(ifs, delimiter))
}

// Without one other byte of IFS.
fn after_separator<'a>(ifs: &Ifs<'_>, marks: &'a [Mark]) -> &'a [Mark]
    ensures { result.now ≡ after_separator_of ifs.now marks.now }
{
    match marks {
        [first, rest @ ..] if is_separator(ifs, *first) => rest,
        _ => marks,
    }
}

fn after_blanks<'a>(ifs: &Ifs<'_>, marks: &'a [Mark]) -> &'a [Mark]
    ensures { result.now ≡ after_blanks_of ifs.now marks.now }
{
    &marks[blank_count(ifs, marks)..]
}

fn blank_count(ifs: &Ifs<'_>, marks: &[Mark]) -> usize
    ensures value { result ≡ prefix_len (is_ifs_blank ifs.now) marks.now }
    ensures within { result ≤ length marks.now }
{
    marks
        .iter()
        .take_while(|mark| is_blank(ifs, **mark))
        .count()
}

// Without IFS blanks at both ends.
fn trimmed<'a>(ifs: &Ifs<'_>, marks: &'a [Mark]) -> &'a [Mark]
    ensures { result.now ≡ trimmed_of ifs.now marks.now }
{
    let rest = after_blanks(ifs, marks);
    &rest[..rest.len() - blanks_at_end(ifs, rest)]
}

fn blanks_at_end(ifs: &Ifs<'_>, marks: &[Mark]) -> usize
    ensures value { result ≡ blanks_at_end_of ifs.now marks.now }
    ensures within { result ≤ length marks.now }
{
    marks
        .iter()
        .rev()
        .take_while(|mark| is_blank(ifs, **mark))
        .count()
}

fn field_len(ifs: &Ifs<'_>, marks: &[Mark]) -> usize
    ensures value { result ≡ field_length ifs.now marks.now }
    ensures within { result ≤ length marks.now }
{
    marks.iter().take_while(|mark| is_part(ifs, **mark)).count()
}

fn is_part(ifs: &Ifs<'_>, mark: Mark) -> bool
    ensures { result ≡ is_field_mark ifs.now mark }
{
    matches!(ifs.role(mark), Role::Part)
}

fn is_blank(ifs: &Ifs<'_>, mark: Mark) -> bool
    ensures { result ≡ is_ifs_blank ifs.now mark }
{
    matches!(ifs.role(mark), Role::Blank)
}

fn is_separator(ifs: &Ifs<'_>, mark: Mark) -> bool
    ensures { result ≡ is_separator_role (role ifs.now mark) }
{
    matches!(ifs.role(mark), Role::Separator)
}
