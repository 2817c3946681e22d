ghost use Rattle.std.specs.Prelude.{◌≡◌, IfOk};
ghost use Rattle.eb_syntax.specs.declared.tree.Command.TheVariants as command;
ghost use Rattle.eb_grammar.specs.Fill as fill;

use crate::bodies::Bodies;
use crate::inner::Inner;
use crate::redirections::filled_decl;
use eb_bytes::Memory;
use eb_syntax::{AndOrOf, Command, CoprocOf, Decl, FuncDefOf, ItemOf, JoinedOf, PipeOf, PipedOf};
use shared::Shared;
use sqlite_items::Boxed;
use std::alloc::Global;
use std::marker::Model;

/// An item whose commands are drafts.
pub type ItemDraft = ItemOf<AndOrDraft>;

/// An AndOr whose commands are drafts.
pub type AndOrDraft = AndOrOf<PipeDraft>;

/// A Pipe after `&&` or `||`, whose commands are drafts.
pub type JoinedDraft = JoinedOf<PipeDraft>;

/// A Pipe whose commands are drafts. Each is held by a pointer, so that a long list of commands takes little room.
pub type PipeDraft = PipeOf<Boxed<Draft>>;

/// A draft after a bar.
pub type PipedDraft = PipedOf<Boxed<Draft>>;

// What a command may be.
enum DraftKind {
    Inner(Inner),
    FuncDef(FuncDefOf<Inner>),
    Coproc(CoprocOf<Inner>),
    Decl(Decl),
}

/// A command before the bodies of its here-documents are known. Contracts see it as the command.
pub struct Draft {
    kind: DraftKind,
}

impl Model for Draft {
    ghost use Rattle.eb_syntax.specs.declared.tree.Command.{Command};
    ghost use Rattle.eb_syntax.specs.contracts.tree.Command as shape;
    ghost use Rattle.bash_drafts.specs.Drafts.{draft_command};

    ghost Value = { Command };

    ghost coded = { shape.the_row.coded };

    ghost view = { λ draft. draft_command draft.kind };
}

impl Drop for Draft {
    fn drop(self) {
        let Draft { kind } = self;
        match kind {
            DraftKind::Inner(inner) => drop(inner),
            DraftKind::FuncDef(function) => drop(function),
            DraftKind::Coproc(coproc) => drop(coproc),
            DraftKind::Decl(declaration) => drop(declaration),
        }
    }
}

impl Draft {
    /// A compound command with its redirections, or a simple command.
    pub fn inner(inner: Inner) -> Draft
        ensures { result ≡ inner }
    {
        Draft {
            kind: DraftKind::Inner(inner),
        }
    }

    /// A function.
    pub fn function(function: FuncDefOf<Inner>) -> Draft
        ensures { result ≡ command.FuncDef function }
    {
        Draft {
            kind: DraftKind::FuncDef(function),
        }
    }

    /// A coprocess.
    pub fn coproc(coproc: CoprocOf<Inner>) -> Draft
        ensures { result ≡ command.Coproc coproc }
    {
        Draft {
            kind: DraftKind::Coproc(coproc),
        }
    }

    /// A declaration.
    pub fn declaration(declaration: Decl) -> Draft
        ensures { result ≡ command.Decl declaration }
    {
        Draft {
            kind: DraftKind::Decl(declaration),
        }
    }

    /// The command, with the bodies of its here-documents.
    ///
    /// # Errors
    /// `Memory` where there is no room for it.
    #[tactic(auto, unfolding(eb_grammar::specs::Fill::filled_command))]
    pub(crate) fn filled(self, alloc: Global, bodies: &Bodies<'_>) -> Result<Command, Memory>
        ensures { IfOk result (λ filled. filled ≡ fill.filled_command bodies.now self) }
    {
        let Draft { kind } = self;
        match kind {
            DraftKind::Inner(inner) => inner.filled(alloc, bodies),
            DraftKind::FuncDef(
                FuncDefOf {
                    keyword,
                    name,
                    body,
                },
            ) => {
                let body = Shared::new(alloc, body.filled(alloc, bodies)?)?;
                Ok(Command::FuncDef(FuncDefOf {
                    keyword,
                    name,
                    body,
                }))
            }
            DraftKind::Coproc(CoprocOf { command }) => {
                let command = Shared::new(alloc, command.filled(alloc, bodies)?)?;
                Ok(Command::Coproc(CoprocOf { command }))
            }
            DraftKind::Decl(declaration) => {
                Ok(Command::Decl(filled_decl(alloc, declaration, bodies)?))
            }
        }
    }
}
