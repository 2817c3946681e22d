//! The bodies that were read, by the marks that they belong to.

ghost use Rattle.std.specs.Prelude.{◌≡◌, ◌≤◌, true, drop, length, IfOk};
ghost use Rattle.std.specs.List.Sorted.{IsNonDecreasingBy};
ghost use Rattle.eb_syntax.specs.declared.tree.HereBody.{HereBody as Body};
ghost use Rattle.eb_grammar.specs.Fill as fill;

use eb_bytes::Memory;
use eb_syntax::{HereBody, HereText};
use shared::Shared;
use std::marker::Model;

/// The bodies of a list of commands, found by their marks. Contracts see them as a list.
#[derive(Drop)]
pub struct Bodies<'a> {
    list: &'a [Shared<HereBody>],
    // Where their marks rise, as those that are read from a text do, the one that is looked for is searched.
    rise: bool,
}

impl<'a> Model for Bodies<'a> {
    ghost use Rattle.std.specs.Prelude.{◌≡◌, List, true};
    ghost use Rattle.std.specs.Coded.{coded_list};
    ghost use Rattle.std.specs.List.Sorted.{IsNonDecreasingBy};
    ghost use Rattle.eb_syntax.specs.declared.tree.HereBody.{HereBody};
    ghost use Rattle.eb_syntax.specs.contracts.tree.HereBody as body;

    ghost Value = { List HereBody };

    ghost coded = { coded_list body.the_row.coded };

    ghost view = { λ b. b.list.now };

    ghost invariant = { λ b. b.rise ≡ true → IsNonDecreasingBy (λ (body : HereBody). body.mark) b.list.now };
}

// Whether the marks of these rise.
fn rise(list: &[Shared<HereBody>]) -> bool
    ensures { result ≡ true → IsNonDecreasingBy (λ (body : Body). body.mark) list.now }
{
    list.is_sorted_by(|one, next| one.get().mark <= next.get().mark)
}

// The body of the mark with this number, where it is one of these.
#[tactic(auto, using(crate::proofs::BodyOf::body_none, crate::proofs::BodyOf::body_here, crate::proofs::BodyOf::body_next))]
fn body_in(mark: u32, bodies: &[Shared<HereBody>]) -> Result<Option<Shared<HereText>>, Memory>
    ensures { IfOk result (λ body. body ≡ fill.body_of mark bodies.now) }
{
    for body in bodies {
        let body = body.get();
        if body.mark == mark {
            return Ok(Some(body.text.share()?));
        }
    }
    Ok(None)
}

impl Bodies<'_> {
    /// These bodies.
    pub fn new(list: &[Shared<HereBody>]) -> Bodies<'_>
        ensures { result ≡ list.now }
    {
        Bodies {
            list,
            rise: rise(list),
        }
    }

    // How many of the first are passed over to find the body of this mark.
    fn before(&self, mark: u32) -> usize
        ensures bound { result ≤ length self.now }
        ensures same { fill.body_of mark (drop result self.now) ≡ fill.body_of mark self.now }
    {
        if !self.rise {
            return 0;
        }
        self.list.partition_point(|body| body.get().mark < mark)
    }

    /// The body of the mark with this number, which is shared. `None` where none of these is.
    ///
    /// # Errors
    /// `Memory` where the body's owners cannot be counted any more.
    pub fn of(&self, mark: u32) -> Result<Option<Shared<HereText>>, Memory>
        ensures { IfOk result (λ body. body ≡ fill.body_of mark self.now) }
    {
        body_in(mark, &self.list[self.before(mark)..])
    }
}
