ghost use Rattle.join.specs.Joining.{Joined};

use encoding::Encoding;
use loes::Refusal;

// The edges that a join made: so many bits of bytes, with what is left of their last byte clear. They may be too many.
#[derive(Clone, Copy)]
pub struct JoinedEdges<'a> {
    pub width: usize,
    pub bits: usize,
    pub bytes: &'a [u8],
    pub ghost joined: { Joined width bits bytes.now },
}

impl<'a> JoinedEdges<'a> {
    ghost use Rattle.std.specs.Prelude.{◌≡◌, ◌≤◌, [], ◌∷◌, length, ltb};
    ghost use Rattle.loes.specs.Limits.{max_edges};
    ghost use Rattle.loes.specs.Bytes.{front};
    ghost use Rattle.loes.specs.Entry.{count};
    ghost use Rattle.loes.specs.Encode.{encode};
    ghost use Rattle.loes.specs.Read.{end_of};
    ghost use Rattle.loes.specs.Held.{entry_held};
    ghost use Rattle.loes.specs.Model.{writes};
    ghost use Rattle.build.specs.Writing.{HoldsOnly, written_outcome};

    // The bytes that they take.
    fn whole(self) -> &'a [u8]
        requires { self.bits ≤ max_edges }
        ensures only { HoldsOnly self.entry.width self.entry.bits result.now }
        ensures same { entry_held self.entry.width self.entry.bits result.now ≡ entry_held self.entry.width self.entry.bits self.entry.bytes.now }
    {
        &self.bytes[..bits::bytes_for(self.bits)]
    }

    // How many members their entry has.
    pub fn members(self) -> usize
        requires { self.bits ≤ max_edges }
        ensures { result ≡ count (entry_held self.entry.width self.entry.bits self.entry.bytes.now) }
    {
        build::members_of(self.width, self.bits, self.whole())
    }

    // The test of 14: whether a buffer of a length is too short for their encoding.
    pub fn too_long(self, room: usize) -> bool
        requires { self.bits ≤ max_edges }
        ensures { result ≡ ltb room (end_of self.entry.width self.entry.bits) }
    {
        build::too_short(self.width, self.bits, room)
    }

    // The encoding of their entry, at the front of a buffer that has room for it; tells its length.
    pub fn put(self, out: &mut [u8]) -> usize
        requires { (self.bits ≤ max_edges) × (end_of self.width self.bits ≤ length out.old) }
        ensures { (result ≡ end_of self.entry.width self.entry.bits) × (out.new ≡ front (encode (entry_held self.entry.width self.entry.bits self.entry.bytes.now)) out.old) }
    {
        build::write_fitting(self.width, self.bits, self.whole(), out);
        build::length_of(self.width, self.bits)
    }

    // Writes their encoding: 5, then 14.
    pub fn write(self, out: &mut [u8]) -> Result<usize, Refusal>
        ensures { written_outcome result out.new ≡ (writes [] (entry_held self.entry.width self.entry.bits self.entry.bytes.now ∷ []) (out.old ∷ [])).outcome }
    {
        if self.bits > Encoding::MAX_EDGES {
            return Err(Refusal::TooLarge);
        }
        build::write(self.width, self.bits, self.whole(), out)
    }
}
