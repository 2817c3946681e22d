ghost use Rattle.std.specs.Prelude.{◌≡◌, IfOk};
ghost use Rattle.shell_state.specs.State.{State};
ghost use Rattle.word_meaning.specs.Lists.{split_marks};
ghost use Rattle.word_meaning.specs.References.{ifs as ifs_in};

use bash_split::split;
use eb_bytes::Memory;
use expand_values::ifs;
use shell_marks::Marked;
use shell_vars::Vars;
use sqlite_items::Items as List;
use std::alloc::Global;

/// The fields of what words gave, split by IFS as it stands.
///
/// # Errors
/// `Memory` where there is no room for them.
pub fn split_words(alloc: Global, vars: &Vars, words: &[Marked]) -> Result<List<Marked>, Memory>
    ensures { (at : State) → at.store ≡ vars.now.present → IfOk result (λ parts. parts ≡ split_marks (ifs_in at) words.now) }
{
    split_all(alloc, ifs(vars), words)
}

// The fields of all words, split by these bytes.
fn split_all(alloc: Global, separators: &[u8], words: &[Marked]) -> Result<List<Marked>, Memory>
    ensures { IfOk result (λ parts. parts ≡ split_marks separators.now words.now) }
{
    let mut parts = List::new(alloc);
    for word in words {
        parts.append(List::from_vec(split(alloc, word, separators)?))?;
    }
    Ok(parts)
}
