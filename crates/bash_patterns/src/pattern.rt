ghost use Rattle.std.specs.Prelude.{◌≡◌, ◌≤◌, length, None, IfOk};
ghost use Rattle.bash_patterns.specs.Form.{form_of};
ghost use Rattle.bash_patterns.specs.Joining.{IsReadAs};
ghost use Rattle.bash_patterns.specs.Matching.{matches as matches_form};
ghost use Rattle.bash_patterns.specs.Pattern.{meaning};
ghost use Rattle.bash_patterns.specs.Places.{all_matches as all_matches_of, first_begin, leftmost, longest_prefix, longest_suffix, shortest_prefix, shortest_suffix};
ghost use Rattle.bash_patterns.specs.Reading.{pattern_of};

use crate::error::PatErr;
use crate::matches::all_matches;
use crate::node::Node;
use crate::places::{first_true, from_end, last_true, value_at};
use crate::read::read;
use crate::symbol::symbols_of;
use crate::walk::walk;
use crate::way::{Goal, Way};
use eb_bytes::Memory;
use shell_marks::Marked;
use std::alloc::Global;

// How many groups may be nested.
const MAX_NESTED: u8 = 64;

/// A compiled pattern. Its `meaning` is what it says of each text.
#[derive(Drop)]
pub struct Pattern {
    alloc: Global,
    root: Node,
}

impl Pattern {
    /// Compiles a pattern (Bash Reference Manual, "Pattern Matching"). Quoted marks stand for themselves, Empty and
    /// Break marks for nothing, and an unquoted backslash quotes what follows. Extended groups are read only where
    /// `extended` says so. The pattern keeps the allocator for its walks.
    ///
    /// # Errors
    /// `TooDeep` where more than 64 groups are nested, `Memory` where there is no room for the pattern.
    pub fn compile(alloc: Global, marks: &Marked, extended: bool) -> Result<Pattern, PatErr>
        ensures ok { IfOk result (λ pattern. IsReadAs (pattern_of extended marks.now) (meaning pattern)) }
        ensures deep { result ≡ Err PatErr.TooDeep → pattern_of extended marks.now ≡ None }
    {
        let symbols = symbols_of(alloc, marks.as_slice())?;
        let root = read(alloc, symbols.as_slice(), extended, MAX_NESTED)?;
        Ok(Pattern { alloc, root })
    }

    /// Whether the pattern matches the whole text.
    ///
    /// # Errors
    /// `Memory` where there is no room for the walk.
    pub fn matches(&self, text: &[u8]) -> Result<bool, Memory>
        ensures { IfOk result (λ does. does ≡ meaning self.now text.now) }
    {
        decide(self.alloc, &self.root, text)
    }

    /// Where the shortest prefix of the text ends that the pattern matches.
    ///
    /// # Errors
    /// `Memory` where there is no room for the walk.
    pub fn shortest_prefix(&self, text: &[u8]) -> Result<Option<usize>, Memory>
        ensures { IfOk result (λ place. place ≡ shortest_prefix (meaning self.now) text.now) }
    {
        let fronts = walk(self.alloc, &self.root, Way::Forward, text, Goal::End)?;
        Ok(first_true(fronts.as_slice()))
    }

    /// Where the longest prefix of the text ends that the pattern matches.
    ///
    /// # Errors
    /// `Memory` where there is no room for the walk.
    pub fn longest_prefix(&self, text: &[u8]) -> Result<Option<usize>, Memory>
        ensures { IfOk result (λ place. place ≡ longest_prefix (meaning self.now) text.now) }
    {
        let fronts = walk(self.alloc, &self.root, Way::Forward, text, Goal::End)?;
        Ok(last_true(fronts.as_slice()))
    }

    /// Where the shortest suffix of the text begins that the pattern matches.
    ///
    /// # Errors
    /// `Memory` where there is no room for the walk.
    pub fn shortest_suffix(&self, text: &[u8]) -> Result<Option<usize>, Memory>
        ensures { IfOk result (λ place. place ≡ shortest_suffix (meaning self.now) text.now) }
    {
        let ends = walk(self.alloc, &self.root, Way::Backward, text, Goal::End)?;
        Ok(from_end(text, first_true(ends.as_slice())))
    }

    /// Where the longest suffix of the text begins that the pattern matches.
    ///
    /// # Errors
    /// `Memory` where there is no room for the walk.
    pub fn longest_suffix(&self, text: &[u8]) -> Result<Option<usize>, Memory>
        ensures { IfOk result (λ place. place ≡ longest_suffix (meaning self.now) text.now) }
    {
        let ends = walk(self.alloc, &self.root, Way::Backward, text, Goal::End)?;
        Ok(from_end(text, last_true(ends.as_slice())))
    }

    /// Where the leftmost match at or after the place `from` begins, and where the longest that begins there ends.
    ///
    /// # Errors
    /// `Memory` where there is no room for the walks.
    #[tactic(auto, using(crate::proofs::Placed::none_past, crate::proofs::Placed::leftmost_none))]
    pub fn first_match(&self, text: &[u8], from: usize) -> Result<Option<(usize, usize)>, Memory>
        ensures { IfOk result (λ places. places ≡ leftmost (meaning self.now) text.now from) }
    {
        if from > text.len() {
            return Ok(None);
        }
        let Some(begin) = self.first_begin(text, from)? else {
            return Ok(None);
        };
        match self.longest_prefix(&text[begin..])? {
            Some(size) => Ok(Some((begin, begin + size))),
            None => Ok(None),
        }
    }

    /// All matches from left to right: where each begins and where it ends. Each is the longest that begins where it
    /// does, none overlap, and none is empty. Where no `!(..)` stands in the pattern this takes one walk over the text;
    /// else one, and one over the rest of the text for each place that no match has taken and where one begins.
    ///
    /// # Errors
    /// `Memory` where there is no room for the walks or for the matches.
    pub fn all_matches(&self, text: &[u8]) -> Result<Vec<(usize, usize)>, Memory>
        ensures { IfOk result (λ found. found.items ≡ all_matches_of (meaning self.now) text.now) }
    {
        all_matches(self.alloc, &self.root, text)
    }

    // The first place from `from` on at which a match begins.
    fn first_begin(&self, text: &[u8], from: usize) -> Result<Option<usize>, Memory>
        requires { from ≤ length text.now }
        ensures { IfOk result (λ begin. begin ≡ first_begin (meaning self.now) text.now from) }
    {
        let rest = &text[from..];
        let begins = walk(self.alloc, &self.root, Way::Backward, rest, Goal::Anywhere)?;
        Ok(from_end(text, last_true(begins.as_slice())))
    }
}

// Whether the node matches the whole text.
#[tactic(auto, unfolding(crate::specs::Form::form_of, crate::specs::Matching::matches))]
fn decide(alloc: Global, node: &Node, text: &[u8]) -> Result<bool, Memory>
    ensures { IfOk result (λ does. does ≡ matches_form (form_of node.now) text.now) }
{
    match node {
        Node::NoneOf(inner) => {
            let does = decide(alloc, inner, text)?;
            Ok(!does)
        }
        Node::Either(first, second) => {
            let does = decide(alloc, first, text)?;
            if does {
                return Ok(true);
            }
            decide(alloc, second, text)
        }
        _ => {
            let ends = walk(alloc, node, Way::Backward, text, Goal::End)?;
            Ok(value_at(ends.as_slice(), text.len()))
        }
    }
}
