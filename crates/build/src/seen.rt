// Counting the set bits of edge bytes on, from the first byte.
ghost use Rattle.std.specs.Prelude.{◌+◌, ◌*◌, ◌/◌, ◌<◌, ◌≤◌, ◌≡◌, length};
ghost use Rattle.loes.specs.Limits.{max_edges};
ghost use Rattle.loes.specs.Bytes.{bits_in};
ghost use Rattle.loes.specs.Edges.{ones as set_bits};

use bits::EdgeOffset;

// The set bits of so many edge bytes, from the first on.
#[derive(Clone, Copy)]
pub struct Seen<'a> {
    pub edges: &'a [u8],
    pub bytes: usize,
    pub ones: usize,
    pub ghost few: { length edges.now ≤ max_edges / 8 },
    pub ghost counted: { ones ≡ set_bits (bits_in edges.now (8 * bytes)) },
}

impl<'a> Seen<'a> {
    // None yet.
    pub(crate) fn none(edges: &'a [u8]) -> Seen<'a>
        requires { length edges.now ≤ max_edges / 8 }
        ensures { (result.edges.now ≡ edges.now) × (result.bytes ≡ 0) }
    {
        Seen {
            edges,
            bytes: 0,
            ones: 0,
        }
    }

    // Counts on by whole words, to less than 8 bytes before `upto`.
    fn by_words(self, upto: usize) -> Seen<'a>
        requires { (self.bytes ≤ upto) × (upto ≤ length self.edges.now) }
        ensures { (result.edges.now ≡ self.entry.edges.now) × (result.bytes ≤ upto) × (upto < result.bytes + 8) }
    {
        let words = (upto - self.bytes) / 8;
        let mut ones = self.ones;
        for k in 0..words {
            ones += bits::word_ones(self.edges, self.bytes + 8 * k);
        }
        Seen {
            edges: self.edges,
            bytes: self.bytes + 8 * words,
            ones,
        }
    }

    // Counts on, to the first `upto` bytes.
    pub(crate) fn count_to(self, upto: usize) -> Seen<'a>
        requires { (self.bytes ≤ upto) × (upto ≤ length self.edges.now) }
        ensures { (result.edges.now ≡ self.entry.edges.now) × (result.bytes ≡ upto) }
    {
        let words = self.by_words(upto);
        Seen {
            edges: self.edges,
            bytes: upto,
            ones: words.ones + bits::tally_bytes(self.edges, words.bytes, upto),
        }
    }

    // The set bits before an offset in the byte behind them.
    pub(crate) fn ones_at(self, o: EdgeOffset) -> usize
        requires { (self.bytes ≡ o.0 / 8) × (o.0 ≤ 8 * length self.edges.now) }
        ensures { result ≡ set_bits (bits_in self.entry.edges.now o.0) }
    {
        let n = o.0;
        let k = n % 8;
        if k == 0 {
            return self.ones;
        }
        self.ones + bits::tally_part(self.edges, n / 8, k)
    }
}
