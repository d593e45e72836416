// The six fields in their order.
ghost use Rattle.std.specs.Prelude.{◌≡◌};
ghost use Rattle.encoding.specs.Fields.{tag_of};

#[derive(Clone, Copy)]
pub enum Field {
    Width = 1,
    Count = 2,
    Levels = 3,
    Edges = 4,
    Blocks = 5,
    SubBlocks = 6,
}

impl Field {
    // The byte that it begins with.
    pub fn tag(self) -> u8
        ensures { result ≡ tag_of self }
    {
        self as u8
    }
}
