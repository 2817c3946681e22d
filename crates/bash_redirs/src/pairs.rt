ghost use Rattle.std.specs.Prelude.{◌≡◌, [], ◌∷◌, ◌++◌, map, MatchResult};

use bash_cursor::LexErr;
use sqlite_items::Items as List;
use std::alloc::Global;
use std::marker::Model;

/// A list of pairs, held as two lists of the same length.
#[derive(Drop)]
pub struct Pairs<T, U> {
    firsts: List<T>,
    seconds: List<U>,
}

impl<T, U> Model for Pairs<T, U> {
    ghost use Rattle.std.specs.Prelude.{◌≡◌, List, length};
    ghost use Rattle.std.specs.Coded.{codes};
    ghost use Rattle.bash_redirs.specs.Delimiters.{paired};

    ghost Value = { List (T × U) };

    ghost coded = { Prim.hlevel (codes, T.code, U.code) };

    ghost view = { λ pairs. paired pairs.firsts pairs.seconds };

    ghost invariant = { λ pairs. length pairs.firsts ≡ length pairs.seconds };
}

impl<T: Drop, U: Drop> Pairs<T, U> {
    /// No pairs. Takes no memory.
    #[tactic(auto, unfolding(crate::specs::Delimiters::paired))]
    pub fn new(alloc: Global) -> Pairs<T, U>
        ensures { result ≡ [] }
    {
        Pairs {
            firsts: List::new(alloc),
            seconds: List::new(alloc),
        }
    }

    /// The first parts of the pairs.
    #[tactic(auto, using(crate::proofs::DelimiterParts::firsts_of))]
    pub fn firsts(self) -> List<T>
        ensures { result ≡ map (λ pair. pair.0) self }
    {
        self.firsts
    }

    /// The second parts of the pairs.
    #[tactic(auto, using(crate::proofs::DelimiterParts::seconds_of))]
    pub fn seconds(&self) -> &[U]
        ensures { result.now ≡ map (λ pair. pair.1) self.now }
    {
        self.seconds.as_slice()
    }
}

// Puts a pair at the end.
#[tactic(auto, using(crate::proofs::DelimiterParts::paired_snoc))]
pub fn put_pair<T: Drop, U: Drop>(pairs: &mut Pairs<T, U>, pair: (T, U)) -> Result<(), LexErr>
    ensures { MatchResult result (λ _. pairs.new ≡ pairs.old ++ pair ∷ []) (λ e. e ≡ LexErr.Memory) }
{
    let (first, second) = pair;
    pairs.firsts.push(first)?;
    match pairs.seconds.push(second) {
        Ok(()) => Ok(()),
        Err(_) => {
            pairs.firsts.pop();
            Err(LexErr::Memory)
        }
    }
}
