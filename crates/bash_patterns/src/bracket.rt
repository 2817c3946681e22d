ghost use Rattle.std.specs.Prelude.{◌≡◌, [], ◌∷◌, ◌++◌, OnOk};
ghost use Rattle.std.specs.declared.cmp.Ordering.TheVariants.{Equal};
ghost use Rattle.std.specs.List.{list_any};
ghost use Rattle.bash_patterns.specs.Brackets.{in_bracket, in_member};

use crate::class::Class;
use eb_bytes::Memory;
use std::alloc::Global;
use std::cmp::Ordering;
use std::marker::Model;

/// A member of a bracket expression.
#[derive(Clone, Copy)]
pub enum Member {
    /// The bytes from the first to the second.
    Range(u8, u8),
    /// The bytes of a class.
    Class(Class),
}

impl Member {
    /// Whether the byte is of this member.
    pub fn has(self, byte: u8) -> bool
        ensures { result ≡ in_member byte self }
    {
        match self {
            Member::Range(low, high) => low <= byte && byte <= high,
            Member::Class(class) => class.has(byte),
        }
    }

    /// The order of members. Which comes first counts for nothing.
    pub fn compare(self, other: Member) -> Ordering
        ensures { result ≡ Equal → self ≡ other }
    {
        match (self, other) {
            (Member::Range(low, high), Member::Range(first, last)) => match low.cmp(&first) {
                Ordering::Equal => high.cmp(&last),
                order => order,
            },
            (Member::Class(class), Member::Class(another)) => class.compare(another),
            (Member::Range(_, _), Member::Class(_)) => Ordering::Less,
            (Member::Class(_), Member::Range(_, _)) => Ordering::Greater,
        }
    }
}

/// A list of members. Contracts see it as that list.
#[derive(Drop)]
pub struct Members {
    items: Vec<Member>,
}

impl Model for Members {
    ghost use Rattle.std.specs.Prelude.{List};
    ghost use Rattle.bash_patterns.specs.declared.bracket.Member.{Member};

    ghost Value = { List Member };

    ghost view = { λ m. m.items.items };
}

/// A bracket expression.
#[derive(Drop)]
pub struct Bracket {
    /// Whether it matches the bytes that are no members.
    pub negated: bool,
    pub members: Members,
}

impl Members {
    /// No members. Takes no memory.
    pub fn new(alloc: Global) -> Members
        ensures { result ≡ [] }
    {
        Members {
            items: Vec::new(alloc),
        }
    }

    /// Puts this member at the end.
    ///
    /// # Errors
    /// `Memory` where there is no room for it.
    pub fn push(&mut self, member: Member) -> Result<(), Memory>
        ensures ok { OnOk result (self.new ≡ self.old ++ member ∷ []) }
    {
        self.items.push(member)?;
        Ok(())
    }

    /// Whether the byte is of a member.
    pub fn has(&self, byte: u8) -> bool
        ensures { result ≡ list_any (in_member byte) self.now }
    {
        self.items.iter().any(|member| member.has(byte))
    }

    /// The order of lists of members. Which comes first counts for nothing.
    pub fn compare(&self, other: &Members) -> Ordering
        ensures { result ≡ Equal → self.now ≡ other.now }
    {
        compare_members(self.items.as_slice(), other.items.as_slice())
    }
}

impl Bracket {
    /// Whether the byte matches.
    pub fn has(&self, byte: u8) -> bool
        ensures { result ≡ in_bracket self.now byte }
    {
        self.members.has(byte) != self.negated
    }
}

fn compare_members(members: &[Member], others: &[Member]) -> Ordering
    ensures { result ≡ Equal → members.now ≡ others.now }
{
    let (mut left, mut others_left) = (members, others);
    'members: loop {
        match (left, others_left) {
            ([], []) => return Ordering::Equal,
            ([], _) => return Ordering::Less,
            (_, []) => return Ordering::Greater,
            ([member, more @ ..], [other, others_more @ ..]) => {
                let order = member.compare(*other);
                if order.is_ne() {
                    return order;
                }
                left = more;
                others_left = others_more;
            }
        }
    }
}
