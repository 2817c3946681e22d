ghost use Rattle.std.specs.Prelude.{◌≡◌, [], ◌∷◌, ◌++◌, MatchResult};
ghost use Rattle.bash_redirs.specs.Delimiters.{added};
ghost use Rattle.eb_grammar.specs.HereDocuments as here;

use crate::lists::copied;
use bash_cursor::LexErr;
use eb_bytes::Bytes;
use std::alloc::Global;
use std::marker::Model;

/// What a piece of a here-document's word is in the delimiter: its bytes after quote removal, and whether any is quoted.
#[derive(Drop)]
pub struct Unquoted {
    bytes: Bytes,
    quoted: bool,
}

impl Model for Unquoted {
    ghost use Rattle.std.specs.Coded.{codes};
    ghost use Rattle.eb_grammar.specs.Rules.{Unquoted as Told};

    ghost Value = { Told };

    ghost coded = { Prim.hlevel codes };

    ghost view = { λ u. record { bytes = u.bytes; quoted = u.quoted } };
}

impl Unquoted {
    /// These bytes, none of which is quoted.
    pub fn bare(bytes: Bytes) -> Unquoted
        ensures { result ≡ here.bare bytes }
    {
        Unquoted {
            bytes,
            quoted: false,
        }
    }

    /// These bytes, in quotes or after a backslash.
    pub fn quoted(bytes: Bytes) -> Unquoted
        ensures { result ≡ here.quoted bytes }
    {
        Unquoted {
            bytes,
            quoted: true,
        }
    }

    /// Its bytes.
    pub fn into_bytes(self) -> Bytes
        ensures { result ≡ self.bytes }
    {
        self.bytes
    }

    /// Whether any is quoted.
    pub fn is_quoted(&self) -> bool
        ensures { result ≡ self.now.quoted }
    {
        self.quoted
    }

    /// Puts another one after it.
    pub fn add(&mut self, more: &Unquoted) -> Result<(), LexErr>
        ensures { MatchResult result (λ _. self.new ≡ added self.old more.now) (λ e. e ≡ LexErr.Memory) }
    {
        self.bytes.extend(more.bytes.as_slice())?;
        self.quoted = self.quoted || more.quoted;
        Ok(())
    }

    /// All of these, one after the other.
    ///
    /// # Errors
    /// `Memory` where there is no room for them.
    #[tactic(auto, using(crate::proofs::DelimiterParts::joined_more))]
    pub fn of_all(alloc: Global, parts: &[Unquoted]) -> Result<Unquoted, LexErr>
        ensures { MatchResult result (λ told. told ≡ here.joined parts.now) (λ e. e ≡ LexErr.Memory) }
    {
        let mut told = Unquoted::bare(Bytes::new(alloc));
        for part in parts {
            told.add(part)?;
        }
        Ok(told)
    }

    /// The parts of an extended group, between an opening parenthesis, with this byte before it, and a closing one.
    ///
    /// # Errors
    /// `Memory` where there is no room for them.
    #[tactic(auto, using(crate::proofs::DelimiterParts::joined_between))]
    pub fn of_group(alloc: Global, kind: u8, parts: &[Unquoted]) -> Result<Unquoted, LexErr>
        ensures { MatchResult result (λ told. told ≡ here.joined (here.bare (kind ∷ 40 ∷ []) ∷ parts.now ++ here.bare (41 ∷ []) ∷ [])) (λ e. e ≡ LexErr.Memory) }
    {
        let mut told = Unquoted::bare(copied(alloc, &[kind, b'('])?);
        told.add(&Unquoted::of_all(alloc, parts)?)?;
        told.add(&Unquoted::bare(copied(alloc, b")")?))?;
        Ok(told)
    }
}
