ghost use Rattle.std.specs.Prelude.{◌≡◌, ◌-◌, ◌<◌, ◌∷◌, length, drop};
ghost use Rattle.bash_patterns.specs.Facing.{facing};
ghost use Rattle.bash_patterns.specs.Walk.{end_of};

/// From which end a text is walked.
#[derive(Clone, Copy)]
pub enum Way {
    /// From its end to its beginning.
    Backward,
    /// From its beginning to its end.
    Forward,
}

impl Way {
    /// The byte that the walk comes to after so many bytes.
    pub fn byte(self, text: &[u8], count: usize) -> u8
        requires { count < length text.now }
        ensures { let left = length text.now - count in drop (left - 1) (facing self text.now) ≡ result ∷ drop left (facing self text.now) }
    {
        match self {
            Way::Backward => text[text.len() - 1 - count],
            Way::Forward => text[count],
        }
    }
}

/// Where a match must end that a walk looks for.
#[derive(Clone, Copy)]
pub enum Goal {
    /// Where the walk begins.
    End,
    /// Anywhere.
    Anywhere,
}

impl Goal {
    /// Where a match ends that ends after so many bytes of the walk, if one may.
    pub fn end(self, count: usize) -> Option<usize>
        ensures { result ≡ end_of self count }
    {
        match self {
            Goal::End => if count == 0 { Some(0) } else { None },
            Goal::Anywhere => Some(count),
        }
    }
}
