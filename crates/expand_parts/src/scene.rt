ghost use Rattle.std.specs.Prelude.{◌≡◌};
ghost use Rattle.expand_parts.specs.Acts.{Opens, Refuses};

use crate::level::{Act, Level, Parts, Use};
use eb_bytes::Bytes;
use expand_marks::Given;
use expand_tildes::may_begin;
use shell_state::{Fault, Opts, Stop};
use shell_vars::Vars;
use std::alloc::Global;
use word_meaning::{Mode, Tildes};

/// What a part of a word is looked at by.
#[derive(Clone, Copy)]
pub struct Scene<'a> {
    pub alloc: Global,
    pub vars: &'a Vars,
    pub args: &'a [Bytes],
    pub opts: Opts,
    pub status: u8,
    /// How many parts may still be opened in it.
    pub room: usize,
}

/// Opens a part, where one more may be open.
pub fn open(
    scene: &Scene<'_>,
    parts: Parts,
    mode: Mode,
    tildes: Tildes,
    used: Use,
) -> Result<Act, Stop>
    ensures { Opens result parts mode tildes used scene.now.room }
{
    if scene.room == 0 {
        return Err(Stop::Fault(Fault::DepthLimit));
    }
    Ok(Act::Open(Level {
        parts,
        at: 0,
        mode,
        tildes,
        may_be_home: may_begin(tildes),
        found: Given::new(scene.alloc),
        used,
    }))
}

/// The refusal of a form of the language.
pub fn unsupported(alloc: Global, form: &[u8]) -> Stop
    ensures { Refuses result form.now }
{
    match Bytes::from_slice(alloc, form) {
        Ok(form) => Stop::Fault(Fault::Unsupported(form)),
        Err(_) => Stop::Memory,
    }
}
