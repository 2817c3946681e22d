ghost use Rattle.std.specs.Prelude.{◌≡◌};
ghost use Rattle.bash_braces.specs.Reading.{role};

use crate::token::Token;

// What a token does where braces are read.
#[derive(Clone, Copy)]
pub(crate) enum Role {
    // `{`
    Opens,
    // `,`
    Divides,
    // `}`
    Closes,
    // It stands for itself.
    Stands,
}

impl Role {
    pub(crate) fn of(token: &Token) -> Role
        ensures { result ≡ role token.now }
    {
        match token.plain_byte() {
            Some(b'{') => Role::Opens,
            Some(b',') => Role::Divides,
            Some(b'}') => Role::Closes,
            _ => Role::Stands,
        }
    }
}
