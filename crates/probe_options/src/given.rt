use eb_bytes::{Bytes, words_of};
use probe_base::{Answer, Fault};
use shell_state::Opts;
use std::alloc::Global;

/// The options of which a text has the names are on.
pub(crate) fn read_options(alloc: Global, text: &[u8]) -> Result<Opts, Fault> {
    let mut opts = Opts {
        noglob: false,
        failglob: false,
        nullglob: false,
        extglob: false,
    };
    for name in &words_of(alloc, text)? {
        switch_on(name, &mut opts)?;
    }
    Ok(opts)
}

fn switch_on(name: &Bytes, opts: &mut Opts) -> Result<(), Fault> {
    match name.as_slice() {
        b"noglob" => opts.noglob = true,
        b"failglob" => opts.failglob = true,
        b"nullglob" => opts.nullglob = true,
        b"extglob" => opts.extglob = true,
        _ => return Err(Fault::NoRequest),
    }
    Ok(())
}

/// Puts the names of the options that are on.
pub(crate) fn put_options(opts: Opts, answer: &mut Answer) {
    put_where(opts.noglob, "noglob", answer);
    put_where(opts.failglob, "failglob", answer);
    put_where(opts.nullglob, "nullglob", answer);
    put_where(opts.extglob, "extglob", answer);
}

fn put_where(on: bool, name: &str, answer: &mut Answer) {
    if on {
        answer.word(name);
    }
}
