//! Laws: facts about the definitions that no single call shows.
ghost use Rattle.shell_state.specs.Laws.{BeginsWithValue, EndsWithValue, IsAssociative};
ghost use Rattle.shell_state.specs.Laws.{EnoughIsEnough, LessIsSpent, SpendingAddsUp, SpendingNeverRises};
ghost use Rattle.shell_state.specs.Laws.{WithinBringsBack, WithinCloses, WithinIsRefused};

/// Of three parts of a run that follow one another it does not matter which two are put together first.
pub fn sequencing_is_associative<A, B, C>()
    ensures { IsAssociative A B C }
{}

/// A part after a value is the part with that value.
pub fn sequencing_begins_with_a_value<A, B>()
    ensures { BeginsWithValue A B }
{}

/// A part whose value is handed on is that part.
pub fn sequencing_ends_with_a_value<A>()
    ensures { EndsWithValue A }
{}

/// To spend some steps and then more is to spend them all together.
#[tactic(auto, using(crate::proofs::Spent::adds_up))]
pub fn spending_adds_up()
    ensures { SpendingAddsUp }
{}

/// No step is given back.
#[tactic(auto, using(crate::proofs::Spent::never_rises))]
pub fn spending_never_rises()
    ensures { SpendingNeverRises }
{}

/// Where so many steps are left as are spent, just so many fewer are left then, and nothing else changes.
#[tactic(auto, using(crate::proofs::Spent::enough))]
pub fn enough_is_enough()
    ensures { EnoughIsEnough }
{}

/// Where fewer steps are left than are to be spent, the run ends, and none is left.
#[tactic(auto, using(crate::proofs::Spent::short))]
pub fn less_is_spent()
    ensures { LessIsSpent }
{}

/// A part runs with one more open, and at its end just that is closed.
#[tactic(auto, using(crate::proofs::Closed::closes))]
pub fn within_closes<A>()
    ensures { WithinCloses A }
{}

/// Where too much is open, the part does not begin.
#[tactic(auto, using(crate::proofs::Closed::is_refused))]
pub fn within_is_refused<A>()
    ensures { WithinIsRefused A }
{}

/// Whatever a part leaves open, after it is open what was open before it.
pub fn within_brings_back<A>()
    ensures { WithinBringsBack A }
{}
