// An opened encoding (document 01: an opened book): bytes that are the encoding of a set, and its numbers.
ghost use Rattle.std.specs.Prelude.{◌≡◌, ◌<◌, ◌≤◌, false, get_or};
ghost use Rattle.loes.specs.Edges.{rank};
ghost use Rattle.loes.specs.Entry.{edges_of};
ghost use Rattle.loes.specs.Encode.{level_end};
ghost use Rattle.loes.specs.Read.{entry_in};
ghost use Rattle.encoding.specs.Opened.{Opens};

use crate::Encoding;
use bits::EdgeOffset;
use loes::Refusal;

#[derive(Clone, Copy)]
pub struct Opened<'a> {
    pub bytes: &'a [u8],
    pub encoding: Encoding,
    ghost opens: { Opens bytes.now encoding },
}

impl<'a> Opened<'a> {
    ghost use Rattle.loes.specs.Calls.{rank_call};
    ghost use Rattle.encoding.specs.Answers.{ranked_outcome};

    // Bytes that are known to be an encoding with these numbers.
    pub fn of(bytes: &'a [u8], encoding: Encoding) -> Opened<'a>
        requires { Opens bytes.now encoding }
        ensures { (result.bytes.now ≡ bytes.now) × (result.encoding ≡ encoding) }
    {
        Opened { bytes, encoding }
    }

    // The set bits before an offset, 0 to b.
    pub fn ones_before(self, at: EdgeOffset) -> usize
        requires { at.0 ≤ self.encoding.bits }
        ensures { result ≡ rank (edges_of (entry_in self.entry.bytes.now)) at.0 }
    {
        crate::indexed_ones(self.bytes, self.encoding, at)
    }

    // Where level d ends.
    pub fn level_end(self, d: usize) -> EdgeOffset
        requires { d < self.encoding.width }
        ensures { result.0 ≡ level_end (entry_in self.entry.bytes.now) d }
    {
        EdgeOffset(bits::number::<4>(self.bytes, Encoding::LEVELS_AT + Encoding::LEVEL_ENTRY * d))
    }

    // Whether the edge at an offset is set.
    pub fn edge_at(self, at: EdgeOffset) -> bool
        requires { at.0 < self.encoding.bits }
        ensures { result ≡ get_or (edges_of (entry_in self.entry.bytes.now)) at.0 false }
    {
        bits::bit_at(self.bytes, 8 * self.encoding.edges + at.0)
    }

    // The rank of an offset, or 9 behind b.
    pub fn rank(self, at: EdgeOffset) -> Result<usize, Refusal>
        ensures { ranked_outcome result ≡ rank_call self.entry.bytes.now at.0 }
    {
        if self.encoding.bits < at.0 {
            return Err(Refusal::OutOfRange);
        }
        Ok(self.ones_before(at))
    }
}
