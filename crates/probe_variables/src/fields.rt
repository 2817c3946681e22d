use eb_bytes::read_decimal;
use probe_base::Fault;

// How many steps a request may take that does not say so.
const STEPS: u64 = 5_000_000;

/// The limit of the steps, `steps LIMIT` where it is given, and the fields after it.
pub fn read_limit<'a>(fields: &'a [&'a [u8]]) -> Result<(u64, &'a [&'a [u8]]), Fault> {
    match fields {
        [word, limit, given @ ..] if *word == b"steps".as_slice() => {
            let limit = read_decimal(limit).ok_or(Fault::NoRequest)?;
            Ok((limit, given))
        }
        given => Ok((STEPS, given)),
    }
}

/// The fields before `set`, and those after it: what is given.
pub fn before_set<'a>(fields: &'a [&'a [u8]]) -> (&'a [&'a [u8]], &'a [&'a [u8]]) {
    for (place, field) in fields.iter().enumerate() {
        if *field == b"set".as_slice() {
            return (&fields[..place], &fields[place + 1..]);
        }
    }
    (fields, &[])
}
