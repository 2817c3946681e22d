use bash_patterns::{PatErr, Pattern};
use eb_bytes::{Memory, read_decimal};
use probe_base::{Answer, Fault, read_marks, read_text};

/// What a pattern that cannot be compiled answers.
pub fn pattern_refusal(error: PatErr) -> Fault {
    match error {
        PatErr::TooDeep => Fault::Refused("deep"),
        PatErr::Memory => Fault::Memory,
    }
}

/// What a request looks for.
#[derive(Clone, Copy)]
pub enum Search {
    /// `matches EXTENDED MARKS TEXT`: whether the pattern matches the text.
    Whole,
    /// `match EXTENDED MARKS TEXT`: whether the pattern matches the text, then the places of the shortest and the
    /// longest prefix, of the shortest and the longest suffix, and of the first match.
    Each,
    /// `first EXTENDED MARKS TEXT FROM`: the places of the first match that begins at this place or after it.
    First,
    /// `all EXTENDED MARKS TEXT`: the places of all matches from left to right, or `none`.
    All,
}

/// Answers a request with a pattern and a text; `deep` where the pattern's groups are nested too deep.
pub fn find(search: Search, fields: &[&[u8]], answer: &mut Answer) -> Result<(), Fault> {
    let [extended, marks, text, from @ ..] = fields else {
        return Err(Fault::NoRequest);
    };
    let extended = match *extended {
        b"0" => false,
        b"1" => true,
        _ => return Err(Fault::NoRequest),
    };
    let marks = read_marks(answer.alloc(), marks)?;
    let pattern = Pattern::compile(answer.alloc(), &marks, extended).map_err(pattern_refusal)?;
    search_field(search, &pattern, text, from, answer)
}

fn search_field(
    search: Search,
    pattern: &Pattern,
    field: &[u8],
    from: &[&[u8]],
    answer: &mut Answer,
) -> Result<(), Fault> {
    let text = read_text(answer.alloc(), field)?;
    let text = text.as_slice();
    match (search, from) {
        (Search::Whole, []) => answer.yes_or_no(pattern.matches(text)?),
        (Search::Each, []) => put_each(pattern, text, answer)?,
        (Search::First, [from]) => put_first(pattern, text, from, answer)?,
        (Search::All, []) => put_all(pattern, text, answer)?,
        _ => return Err(Fault::NoRequest),
    }
    Ok(())
}

fn put_each(pattern: &Pattern, text: &[u8], answer: &mut Answer) -> Result<(), Memory> {
    answer.yes_or_no(pattern.matches(text)?);
    put_place(pattern.shortest_prefix(text)?, answer);
    put_place(pattern.longest_prefix(text)?, answer);
    put_place(pattern.shortest_suffix(text)?, answer);
    put_place(pattern.longest_suffix(text)?, answer);
    put_places(pattern.first_match(text, 0)?, answer);
    Ok(())
}

fn put_first(
    pattern: &Pattern,
    text: &[u8],
    from: &[u8],
    answer: &mut Answer,
) -> Result<(), Fault> {
    let from = read_decimal(from).ok_or(Fault::NoRequest)?;
    put_places(pattern.first_match(text, from as usize)?, answer);
    Ok(())
}

fn put_all(pattern: &Pattern, text: &[u8], answer: &mut Answer) -> Result<(), Memory> {
    for (begin, end) in pattern.all_matches(text)? {
        put_places(Some((begin, end)), answer);
    }
    if answer.is_empty() {
        answer.word("none");
    }
    Ok(())
}

fn put_place(place: Option<usize>, answer: &mut Answer) {
    match place {
        Some(place) => answer.number(place as u64),
        None => answer.word("none"),
    }
}

fn put_places(places: Option<(usize, usize)>, answer: &mut Answer) {
    match places {
        Some((begin, end)) => {
            answer.number(begin as u64);
            answer.push_word("-");
            answer.push_number(end as u64);
        }
        None => answer.word("none"),
    }
}
