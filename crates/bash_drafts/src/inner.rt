ghost use Rattle.std.specs.Prelude.{◌≡◌, IfOk};
ghost use Rattle.eb_syntax.specs.declared.tree.Command.TheVariants as command;
ghost use Rattle.eb_grammar.specs.Fill as fill;

use crate::bodies::Bodies;
use crate::redirections::{filled_redirs, filled_simple};
use eb_bytes::Memory;
use eb_syntax::{Command, Compound, Redir, Simple};
use sqlite_items::Items as List;
use std::alloc::Global;
use std::marker::Model;

// What may be the command of a function or of a coprocess.
enum InnerKind {
    Compound(Compound, List<Redir>),
    Simple(Simple),
}

/// A compound command with its redirections, or a simple command, before the bodies of its here-documents are known.
/// Contracts see it as the command.
pub struct Inner {
    kind: InnerKind,
}

impl Model for Inner {
    ghost use Rattle.eb_syntax.specs.declared.tree.Command.{Command};
    ghost use Rattle.eb_syntax.specs.contracts.tree.Command as shape;
    ghost use Rattle.bash_drafts.specs.Inners.{inner_command};

    ghost Value = { Command };

    ghost coded = { shape.the_row.coded };

    ghost view = { λ inner. inner_command inner.kind };
}

impl Drop for Inner {
    fn drop(self) {
        let Inner { kind } = self;
        match kind {
            InnerKind::Compound(what, redirs) => {
                drop(what);
                drop(redirs);
            }
            InnerKind::Simple(simple) => drop(simple),
        }
    }
}

impl Inner {
    /// A compound command with its redirections.
    pub fn compound(what: Compound, redirs: List<Redir>) -> Inner
        ensures { result ≡ command.Compound what redirs }
    {
        Inner {
            kind: InnerKind::Compound(what, redirs),
        }
    }

    /// A simple command.
    pub fn simple(simple: Simple) -> Inner
        ensures { result ≡ command.Simple simple }
    {
        Inner {
            kind: InnerKind::Simple(simple),
        }
    }

    /// The command, with the bodies of its here-documents. As a command of its own it has the same ones.
    ///
    /// # Errors
    /// `Memory` where there is no room for it.
    #[tactic(auto, unfolding(eb_grammar::specs::Fill::filled_inner, eb_grammar::specs::Fill::filled_command))]
    pub(crate) fn filled(self, alloc: Global, bodies: &Bodies<'_>) -> Result<Command, Memory>
        ensures inner { IfOk result (λ filled. filled ≡ fill.filled_inner bodies.now self) }
        ensures alone { IfOk result (λ filled. filled ≡ fill.filled_command bodies.now self) }
    {
        let Inner { kind } = self;
        match kind {
            InnerKind::Compound(what, redirs) => {
                let redirs = filled_redirs(alloc, redirs, bodies)?;
                Ok(Command::Compound(what, redirs))
            }
            InnerKind::Simple(simple) => Ok(Command::Simple(filled_simple(alloc, simple, bodies)?)),
        }
    }
}
