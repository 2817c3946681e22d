use probe_base::{Answer, Fault, read_marks, read_text};
use shell_marks::Marked;

/// `split IFS MARKS`: the fields as lists of marks, `.` for a field without marks; `-` where there is no field.
pub fn split(fields: &[&[u8]], answer: &mut Answer) -> Result<(), Fault> {
    let [ifs, marks] = fields else {
        return Err(Fault::NoRequest);
    };
    let marks = read_marks(answer.alloc(), marks)?;
    let ifs = read_text(answer.alloc(), ifs)?;
    split_marks(&marks, ifs.as_slice(), answer)
}

fn split_marks(marks: &Marked, ifs: &[u8], answer: &mut Answer) -> Result<(), Fault> {
    for field in bash_split::split(answer.alloc(), marks, ifs)? {
        match field.as_slice() {
            [] => answer.word("."),
            marks => answer.marks(marks),
        }
    }
    if answer.is_empty() {
        answer.word("-");
    }
    Ok(())
}
