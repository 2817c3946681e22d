ghost use Rattle.std.specs.Prelude.{◌≡◌, [], ◌∷◌, ◌++◌, OnErr, OnOk};
ghost use Rattle.std.specs.Option.{option_copied};
ghost use Rattle.script_host.specs.Scripts.{found};

use eb_bytes::{Bytes, Memory};
use eb_grammar::Parsed;
use shared::Shared;
use std::alloc::Global;
use std::marker::Model;

/// A script with its name.
#[derive(Drop)]
pub struct Script {
    /// The name of the command that runs it.
    pub name: Bytes,
    /// The script with its text.
    pub parsed: Shared<Parsed>,
}

/// Scripts by name. Contracts see them as a list.
#[derive(Drop)]
pub struct Scripts {
    scripts: Vec<Script>,
}

impl Model for Scripts {
    ghost use Rattle.std.specs.Prelude.{List};
    ghost use Rattle.std.specs.Coded.{coded_list};
    ghost use Rattle.script_host.specs.declared.scripts.Script.{Script};
    ghost use Rattle.script_host.specs.contracts.scripts.Script as script;

    ghost Value = { List Script };

    ghost coded = { coded_list script.the_row.coded };

    ghost view = { λ s. s.scripts.items };
}

impl Scripts {
    /// No script. Takes no memory.
    pub fn new(alloc: Global) -> Scripts
        ensures { result ≡ [] }
    {
        Scripts {
            scripts: Vec::new(alloc),
        }
    }

    /// One script more, which counts where no script before it has its name.
    ///
    /// # Errors
    /// `Memory` where there is no room for it; nothing changed then.
    pub fn add(&mut self, script: Script) -> Result<(), Memory>
        ensures ok { OnOk result (self.new ≡ self.old ++ script ∷ []) }
        ensures err { OnErr result (self.new ≡ self.old) }
    {
        self.scripts.push(script)?;
        Ok(())
    }

    /// The first script of this name.
    pub fn find(&self, name: &[u8]) -> Option<&Shared<Parsed>>
        ensures { option_copied result ≡ found name.now self.now }
    {
        let scripts = self.scripts.as_slice();
        for script in scripts {
            if script.name.as_slice() == name {
                return Some(&script.parsed);
            }
        }
        None
    }
}
