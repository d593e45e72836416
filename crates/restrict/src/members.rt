ghost use Rattle.std.specs.Prelude.{◌≡◌};
ghost use Rattle.records.specs.Kinds.{number_of_kept};
ghost use Rattle.restrict.specs.Flags.{member_flag};

use records::Kept;

// Which members of a union: those that only the first set has, only the second, both.
#[derive(Clone, Copy, PartialEq, Eq, Debug)]
pub enum Members {
    FirstOnly = 1,
    SecondOnly = 2,
    Both = 3,
}

impl Members {
    // Their flag, two bits: whether the second, and whether the first set has them.
    pub fn flag(self) -> u8
        ensures { result ≡ member_flag self }
    {
        self as u8
    }
}

// The test of a table that keeps them.
impl From<Members> for Kept {
    ghost from_gives = { λ m k. number_of_kept k ≡ member_flag m };

    fn from(members: Members) -> Kept {
        match members {
            Members::FirstOnly => Kept::FirstOnly,
            Members::SecondOnly => Kept::SecondOnly,
            Members::Both => Kept::Both,
        }
    }
}
