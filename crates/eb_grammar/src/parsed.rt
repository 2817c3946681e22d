ghost use Rattle.std.specs.Prelude.{◌≡◌};
ghost use Rattle.eb_grammar.specs.Grammar.{Node, script as reading};

use eb_bytes::Bytes;
use eb_syntax::Script;
use std::marker::Model;

/// A text and its script, which is the grammar's reading of it. Contracts see the two.
#[derive(Drop)]
pub struct Parsed {
    text: Bytes,
    script: Script,
}

impl Model for Parsed {
    ghost use Rattle.std.specs.Prelude.{◌≡◌};
    ghost use Rattle.eb_grammar.specs.Grammar.{Node, script as reading};
    ghost use Rattle.eb_grammar.specs.Parsed.{ParsedText};
    ghost use Rattle.eb_syntax.specs.contracts.tree.Items as items;
    ghost use Rattle.std.specs.Coded.{codes};

    ghost Value = { ParsedText };

    ghost coded = { Prim.hlevel (codes, items.the_row.coded) };

    ghost view = { λ p. record { text = p.text; script = p.script } };

    ghost invariant = { λ p. reading p.text ≡ Node p.script };
}

impl Parsed {
    /// The text with this script, which is its reading.
    pub fn new(text: Bytes, script: Script) -> Parsed
        requires { reading text ≡ Node script }
        ensures { result ≡ record { text = text; script = script } }
    {
        Parsed { text, script }
    }

    /// The text.
    pub fn text(&self) -> &[u8]
        ensures { result.now ≡ self.now.text }
    {
        self.text.as_slice()
    }

    /// The script that the grammar reads in the text.
    pub fn script(&self) -> &Script
        ensures value { result.now ≡ self.now.script }
        ensures is_reading { reading self.now.text ≡ Node result.now }
    {
        &self.script
    }
}
