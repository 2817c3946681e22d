use eapi_tables::{Eapi, Key, Phase, accumulates, eapi_line, has_key, is_phase};
use probe_base::{Answer, Fault};

/// `eapi TEXT`: the EAPI that an ebuild's text names, as its text.
pub fn eapi(text: &[u8], answer: &mut Answer) -> Result<(), Fault> {
    answer.text(eapi_line(text));
    Ok(())
}

/// `key EAPI KEY`: whether the EAPI has the key, and whether it accumulates it, `yes` or `no` each; `none` where the
/// EAPI or the key is none.
pub fn key(eapi: &[u8], key: &[u8], answer: &mut Answer) -> Result<(), Fault> {
    let eapi = read_eapi(eapi)?;
    let key = Key::read(key).ok_or(Fault::Refused("none"))?;
    answer.yes_or_no(has_key(eapi, key));
    answer.yes_or_no(accumulates(eapi, key));
    Ok(())
}

/// `phase EAPI NAME`: `yes` where the name is that of a phase function of the EAPI, else `no`; `none` where the EAPI is
/// none.
pub fn phase(eapi: &[u8], name: &[u8], answer: &mut Answer) -> Result<(), Fault> {
    answer.yes_or_no(is_phase(read_eapi(eapi)?, name));
    Ok(())
}

/// `phases EAPI`: the names of the phase functions of the EAPI, in the order of the phases; `none` where the EAPI is
/// none.
pub fn phases(eapi: &[u8], answer: &mut Answer) -> Result<(), Fault> {
    let eapi = read_eapi(eapi)?;
    for phase in Phase::ALL {
        if is_phase(eapi, phase.name()) {
            answer.text(phase.name());
        }
    }
    Ok(())
}

fn read_eapi(text: &[u8]) -> Result<Eapi, Fault> {
    match Eapi::read(text) {
        Ok(eapi) => Ok(eapi),
        Err(_) => Err(Fault::Refused("none")),
    }
}
