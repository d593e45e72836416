ghost use Rattle.std.specs.Prelude.{◌≡◌};

use encoding::opening::Opened;

// Two opened encodings of one width.
#[derive(Clone, Copy)]
pub struct Pair<'a, 'b> {
    pub first: Opened<'a>,
    pub second: Opened<'b>,
    pub ghost one_width: { first.encoding.width ≡ second.encoding.width },
}
