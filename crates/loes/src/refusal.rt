// The refusals, as specs/Refusals.antt numbers and explains them.
ghost use Rattle.std.specs.Prelude.{◌≡◌};
ghost use Rattle.loes.specs.Numbers.{number_of};

#[derive(Clone, Copy, PartialEq, Eq)]
pub enum Refusal {
    Truncated = 1,
    WrongTag = 2,
    WrongLength = 3,
    BadWidth = 4,
    TooLarge = 5,
    TrailingBytes = 6,
    NotAnEncoding = 7,
    BadKey = 8,
    OutOfRange = 9,
    RaggedBatch = 10,
    UnusedBitSet = 11,
    Descending = 12,
    TwoWidths = 13,
    ShortBuffer = 14,
    BadCursor = 15,
    WrongList = 16,
    Overflow = 17,
}

impl Refusal {
    // Its number, by which it is told.
    pub fn number(self) -> u8
        ensures { result ≡ number_of self }
    {
        self as u8
    }
}
