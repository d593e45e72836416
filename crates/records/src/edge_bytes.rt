ghost use Rattle.std.specs.Prelude.{◌+◌, ◌*◌, ◌/◌, ◌≤◌, length};
ghost use Rattle.loes.specs.Held.{Holds};
ghost use Rattle.records.specs.Numbers.{overread};

// The edges of an entry: so many bits of bytes, with room behind them to read a window of records at any of them.
#[derive(Clone, Copy)]
pub struct EdgeBytes<'a> {
    pub width: usize,
    pub bits: usize,
    pub bytes: &'a [u8],
    pub ghost holds: { Holds width bits bytes.now },
    pub ghost behind: { bits / 2 + overread ≤ 4 * length bytes.now },
}
