ghost use Rattle.std.specs.Prelude.{◌≡◌};
ghost use Rattle.frame.specs.Vote.{vote_of};

// The decision of three samples: the level that two or all three of them have, and whether all three have it.
#[derive(Clone, Copy)]
pub struct Vote {
    pub level: bool,
    pub unanimous: bool,
}

// Where the first two agree they decide, else the third does.
pub fn majority(a: bool, b: bool, c: bool) -> Vote
    ensures { result ≡ vote_of a b c }
{
    if a == b {
        Vote {
            level: a,
            unanimous: a == c,
        }
    } else {
        Vote {
            level: c,
            unanimous: false,
        }
    }
}
