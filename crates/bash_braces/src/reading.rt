ghost use Rattle.std.specs.Prelude.{◌≡◌, ◌∷◌, length, IfOk};
ghost use Rattle.bash_braces.specs.Reading.{by_role, choice, enclosed, made, pair, plain_level, put as put_index, empty, sequence_of, whole};
ghost use Rattle.bash_braces.specs.Symbols.{at};
ghost use Rattle.std.specs.List.{range_with_len};

use crate::queue::Queue;
use crate::role::Role;
use crate::sequence::{Sequence, read_sequence};
use crate::token::Token;
use crate::value::Value;
use eb_bytes::{Bytes, Memory};
use std::alloc::Global;

// A text before its first `}` that belongs to no `{` of it: its alternatives, from the left.
#[derive(Drop)]
pub(crate) struct Level<V> {
    first: V,
    others: Queue<V>,
}

// A text: its level, and after each `}` that belongs to no `{` of it the level that follows.
#[derive(Drop)]
pub(crate) struct Reading<V> {
    here: Level<V>,
    outer: Queue<Level<V>>,
}

// The text up to the next `}`, where only unquoted bytes stand before it and none is a `{`.
#[tactic(auto, using(crate::proofs::Enclosing::enclosed_step, crate::proofs::Enclosing::onto_found_more))]
fn enclosed(alloc: Global, tokens: &[Token]) -> Result<Option<Bytes>, Memory>
    ensures { IfOk result (λ text. text ≡ enclosed tokens.now) }
{
    let mut text = Bytes::new(alloc);
    for token in tokens {
        match token.plain_byte() {
            Some(b'}') => return Ok(Some(text)),
            Some(b'{') => return Ok(None),
            Some(byte) => text.push(byte)?,
            None => {
                if !token.is_continuation() {
                    return Ok(None);
                }
            }
        }
    }
    Ok(None)
}

// The sequence that stands before the next `}`, if one does.
fn sequence_before(alloc: Global, tokens: &[Token]) -> Result<Option<Sequence>, Memory>
    ensures { IfOk result (λ held. held ≡ sequence_of (enclosed tokens.now)) }
{
    match enclosed(alloc, tokens)? {
        Some(text) => Ok(read_sequence(text.as_slice())),
        None => Ok(None),
    }
}

// All alternatives of a level.
fn choice<V: Value>(first: V, mut others: Queue<V>) -> Result<V, Memory>
    ensures { IfOk result (λ all. all ≡ choice V.values first others) }
{
    let mut all = first;
    while let Some(other) = others.take_first() {
        all = all.either(other)?;
    }
    Ok(all)
}

impl<V: Value> Level<V> {
    fn empty(alloc: Global) -> Result<Level<V>, Memory>
        ensures { IfOk result (λ level. level ≡ empty V.values) }
    {
        Ok(Level {
            first: V::nothing(alloc)?,
            others: Queue::new(alloc),
        })
    }

    // The level with the token at a place before it.
    fn put(self, alloc: Global, index: usize) -> Result<Level<V>, Memory>
        ensures { IfOk result (λ level. level ≡ put_index V.values index self) }
    {
        Ok(Level {
            first: self.first.put(alloc, index)?,
            others: self.others,
        })
    }

    // What is made of the level and its commas as text.
    #[tactic(auto, using(crate::proofs::Levels::commas_last))]
    fn plain(self, alloc: Global) -> Result<V, Memory>
        ensures { IfOk result (λ value. value ≡ plain_level V.values self) }
    {
        let Level { first, mut others } = self;
        let mut after = V::nothing(alloc)?;
        while let Some(other) = others.take_last() {
            after = after.follow(alloc, other)?.byte(alloc, b',')?;
        }
        after.follow(alloc, first)
    }

    // What is made of a pair of braces with this level inside, and of what stands after it. `tokens` stand after the
    // `{`.
    fn pair(self, alloc: Global, tokens: &[Token], after: V) -> Result<V, Memory>
        ensures { IfOk result (λ value.
            value ≡ pair V.values self.first self.others (sequence_of (enclosed tokens.now)) after) }
    {
        let Level { first, others } = self;
        if others.len() != 0 {
            return after.follow(alloc, choice(first, others)?);
        }
        match sequence_before(alloc, tokens)? {
            Some(held) => after.follow(alloc, V::run(alloc, &held)?),
            None => {
                let closed = after.byte(alloc, b'}')?;
                let inside = closed.follow(alloc, first)?;
                inside.byte(alloc, b'{')
            }
        }
    }
}

impl<V: Value> Reading<V> {
    ghost use Rattle.bash_braces.specs.Reading.{divided, opened};

    // The reading with the `{` at a place before it, which stands before `tokens`.
    fn open(self, alloc: Global, index: usize, tokens: &[Token]) -> Result<Reading<V>, Memory>
        ensures { IfOk result (λ reading. reading ≡ opened V.values index tokens.now self.here self.outer) }
    {
        let Reading { here, mut outer } = self;
        match outer.take_first() {
            None => Ok(Reading {
                here: here.put(alloc, index)?,
                outer,
            }),
            Some(next) => {
                let Level { first, others } = next;
                let first = here.pair(alloc, tokens, first)?;
                Ok(Reading {
                    here: Level { first, others },
                    outer,
                })
            }
        }
    }

    // The reading with a `,` before it.
    fn divide(self, alloc: Global, index: usize) -> Result<Reading<V>, Memory>
        ensures { IfOk result (λ reading. reading ≡ divided V.values index self.here self.outer) }
    {
        let Reading { here, outer } = self;
        if outer.len() == 0 {
            return Ok(Reading {
                here: here.put(alloc, index)?,
                outer,
            });
        }
        let Level { first, mut others } = here;
        others.put_first(first)?;
        Ok(Reading {
            here: Level {
                first: V::nothing(alloc)?,
                others,
            },
            outer,
        })
    }

    // The reading with a `}` before it.
    fn close(self, alloc: Global) -> Result<Reading<V>, Memory>
        ensures { IfOk result (λ reading.
            reading ≡ record { here = empty V.values; outer = self.here ∷ self.outer }) }
    {
        let Reading { here, mut outer } = self;
        outer.put_first(here)?;
        Ok(Reading {
            here: Level::empty(alloc)?,
            outer,
        })
    }

    // The reading with the token at a place before it, which does this and stands before `tokens`.
    fn take(
        self,
        alloc: Global,
        role: Role,
        index: usize,
        tokens: &[Token],
    ) -> Result<Reading<V>, Memory>
        ensures { IfOk result (λ reading. reading ≡ by_role V.values role index tokens.now self) }
    {
        match role {
            Role::Opens => self.open(alloc, index, tokens),
            Role::Divides => self.divide(alloc, index),
            Role::Closes => self.close(alloc),
            Role::Stands => {
                let Reading { here, outer } = self;
                Ok(Reading {
                    here: here.put(alloc, index)?,
                    outer,
                })
            }
        }
    }

    // What is made of the whole text: what belongs to no pair stands for itself.
    #[tactic(auto, using(crate::proofs::Levels::closings_last))]
    fn finish(self, alloc: Global) -> Result<V, Memory>
        ensures { IfOk result (λ value. value ≡ whole V.values self) }
    {
        let Reading { here, mut outer } = self;
        let mut after = V::nothing(alloc)?;
        while let Some(level) = outer.take_last() {
            after = after.follow(alloc, level.plain(alloc)?)?.byte(alloc, b'}')?;
        }
        after.follow(alloc, here.plain(alloc)?)
    }
}

// What is made of a list of tokens, read from its end.
pub(crate) fn made<V: Value>(alloc: Global, tokens: &[Token]) -> Result<V, Memory>
    ensures { IfOk result (λ value. value ≡ made V.values (at tokens.now) (range_with_len 0 (length tokens.now))) }
{
    let mut reading = Reading {
        here: Level::<V>::empty(alloc)?,
        outer: Queue::new(alloc),
    };
    let mut left = tokens.len();
    while 0 < left {
        left -= 1;
        reading = reading.take(alloc, Role::of(&tokens[left]), left, &tokens[left + 1..])?;
    }
    reading.finish(alloc)
}
