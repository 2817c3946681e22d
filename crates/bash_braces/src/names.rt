ghost use Rattle.std.specs.Prelude.{◌≡◌, IfOk};
ghost use Rattle.bash_braces.specs.Names.{before, first_byte, named};

use crate::queue::Queue;
use crate::token::plain_byte;
use byte_class::{is_name_byte, is_name_start};
use eb_bytes::{Bytes, Memory};
use eb_syntax::{Dollar, GroupPart, GroupPartOf, Piece, Plain};
use shared::Shared;
use std::alloc::Global;

// The unquoted byte that parts begin with.
fn first_byte(parts: &Queue<GroupPart>) -> Option<u8>
    ensures { result ≡ first_byte parts.now }
{
    plain_byte(parts.first()?)
}

// A name before these parts, which goes on through the name bytes that they begin with.
fn named(
    alloc: Global,
    begun: Bytes,
    mut parts: Queue<GroupPart>,
) -> Result<Queue<GroupPart>, Memory>
    ensures { IfOk result (λ all. all ≡ named begun parts) }
{
    let mut name = begun;
    while let Some(byte) = first_byte(&parts) {
        if !is_name_byte(byte) {
            break;
        }
        parts.take_first();
        name.push(byte)?;
    }
    let name = Piece::Dollar(Dollar::Name(Shared::new(alloc, name)?));
    parts.put_first(GroupPartOf::Piece(name))?;
    Ok(parts)
}

// A part before these parts.
pub(crate) fn before(
    alloc: Global,
    part: GroupPart,
    mut parts: Queue<GroupPart>,
) -> Result<Queue<GroupPart>, Memory>
    ensures { IfOk result (λ all. all ≡ before part parts) }
{
    if let Some(byte) = first_byte(&parts) {
        match &part {
            GroupPartOf::Piece(Piece::Dollar(Dollar::Name(name))) if is_name_byte(byte) => {
                return named(alloc, name.get().copy(alloc)?, parts);
            }
            GroupPartOf::Piece(Piece::Plain(Plain::Lone)) if is_name_start(byte) => {
                return named(alloc, Bytes::new(alloc), parts);
            }
            _ => {}
        }
    }
    parts.put_first(part)?;
    Ok(parts)
}
