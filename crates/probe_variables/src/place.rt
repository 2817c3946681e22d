use byte_class::is_name;
use probe_base::{Fault, cut};
use shell_vars::VarErr;
use signed_numbers::read_signed;

/// A variable, or an element of one.
#[derive(Clone, Copy)]
pub struct Place<'a> {
    pub name: &'a [u8],
    pub subscript: Option<i64>,
}

/// The variable that a field names, `NAME`, or the element, `NAME[SUBSCRIPT]`.
pub fn read_place(field: &[u8]) -> Result<Place<'_>, Fault> {
    let Some((name, subscript)) = cut(field, b'[') else {
        let name = read_name(field)?;
        return Ok(Place {
            name,
            subscript: None,
        });
    };
    let [digits @ .., b']'] = subscript else {
        return Err(Fault::NoRequest);
    };
    let name = read_name(name)?;
    let subscript = read_signed(digits).ok_or(Fault::NoRequest)?;
    Ok(Place {
        name,
        subscript: Some(subscript),
    })
}

/// The name that a field is.
pub fn read_name(field: &[u8]) -> Result<&[u8], Fault> {
    if is_name(field) {
        Ok(field)
    } else {
        Err(Fault::NoRequest)
    }
}

/// What a refusal of a variable answers.
pub fn refusal(refusal: VarErr) -> Fault {
    match refusal {
        VarErr::Readonly => Fault::Refused("Readonly"),
        VarErr::LocalOutside => Fault::Refused("LocalOutside"),
        VarErr::BadSubscript => Fault::Refused("BadSubscript"),
        VarErr::ValueSize => Fault::Refused("ValueSize"),
        VarErr::TotalSize => Fault::Refused("TotalSize"),
        VarErr::Memory => Fault::Memory,
    }
}
