ghost use Rattle.std.specs.Prelude.{◌≡◌, OnOk, OnErr};
ghost use Rattle.std.specs.Option.{option_copied};
ghost use Rattle.std.specs.FinMap as map;
ghost use Rattle.eb_files.specs.Files.{IfMemory};
ghost use Rattle.eb_files.specs.Trees.{read_answer};

use crate::path::Path;
use crate::tree::TreeErr;
use eb_bytes::{Bytes, Memory};
use std::alloc::Global;
use std::collections::BTreeMap;
use std::marker::Model;

/// Files in memory. Contracts see them as a finite map from path to bytes.
#[derive(Drop)]
pub(crate) struct Store {
    tree: BTreeMap<Path, Bytes>,
}

impl Model for Store {
    ghost use Rattle.std.specs.FinMap as map;
    ghost use Rattle.eb_files.specs.Files.{Files, files_code};

    ghost Value = { Files };

    ghost coded = { files_code };

    ghost view = { λ s. map.from_entries s.tree.entries };
}

impl Store {
    pub(crate) fn new(alloc: Global) -> Store
        ensures { result ≡ map.empty }
    {
        Store {
            tree: BTreeMap::new(alloc),
        }
    }

    pub(crate) fn get(&self, path: &Path) -> Option<&Bytes>
        ensures { option_copied result ≡ map.get self.now path.now }
    {
        self.tree.get(path)
    }

    pub(crate) fn insert(&mut self, path: Path, bytes: Bytes) -> Result<(), Memory>
        ensures ok { OnOk result (self.new ≡ map.insert self.old path bytes) }
        ensures err { OnErr result (self.new ≡ self.old) }
    {
        self.tree.insert(path, bytes)?;
        Ok(())
    }

    pub(crate) fn remove(&mut self, path: &Path)
        ensures { self.new ≡ map.remove self.old path.now }
    {
        self.tree.remove(path);
    }

    pub(crate) fn read(
        &self,
        alloc: Global,
        path: &Path,
        limit: usize,
    ) -> Result<Option<Bytes>, TreeErr>
        ensures { IfMemory result (Unit {0}) (result ≡ read_answer (map.get self.now path.now) limit) }
    {
        match self.get(path) {
            None => Ok(None),
            Some(file) if file.len() > limit => Err(TreeErr::TooLarge),
            Some(file) => Ok(Some(Bytes::from_slice(alloc, file.as_slice())?)),
        }
    }
}
