//! `egencache`: the cache entry of an ebuild, read from a repository and put on standard output.
#![tactic(auto)]

ghost use Rattle.std.specs.Prelude.{◌≡◌, ◌<◌};

mod assignments;
mod fault;
mod host;
mod line_laws;
mod plain;
mod report;
mod request;
mod source;
mod status;
mod system;
mod text_laws;
mod top;

use crate::host::{HostSink, HostTree};
use crate::status::Status;
use crate::system::read_words;
use crate::top::egencache;
use eb_bytes::{Bytes, Memory, Steps};
use std::env;
use std::marker::Brand;
use std::process::ExitCode;
use std::sync::ledger::{Blank, Ledger};

fn answer<L: Ledger>(rt: &HostRuntime, words: &[Bytes], blank: Blank) -> Status
    requires name { blank.name ≡ L.name }
    requires parts { blank.parts ≡ L.parts }
    requires some { 0 < blank.parts }
{
    let mut steps = Steps::<L>::new(blank);
    let mut tree = HostTree::new(rt);
    let mut out = HostSink::new(rt);
    egencache(rt.alloc(), words, &mut tree, &mut out, &mut steps)
}

fn main(rt: HostRuntime) -> ExitCode {
    let status = match read_words(rt.alloc(), env::args(&rt)) {
        Ok(words) => answer::<Brand>(&rt, words.as_slice(), Blank::new(1)),
        Err(Memory) => Status::Memory,
    };
    ExitCode::from(status.code())
}
