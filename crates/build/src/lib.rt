// The one writer: an encoding from its edge bytes, each field in the rest of the buffer behind the field before it.
#![tactic(auto)]

ghost use Rattle.std.specs.Prelude.{ℕ, ◌+◌, ◌-◌, ◌*◌, ◌/◌, ◌%◌, ◌^◌, ◌<◌, ◌≤◌, ◌≡◌, [], ◌∷◌, ◌++◌, length, get_or, take, drop, ltb};
ghost use Rattle.loes.specs.Limits.{max_width, max_edges, block_bits, sub_block_bits, length_bytes, head_bytes, width_bytes, count_bytes, level_entry, block_entry, sub_block_entry};
ghost use Rattle.loes.specs.Bytes.{big_endian, big_endians, started, bits_in, front};
ghost use Rattle.loes.specs.Edges.{ones};
ghost use Rattle.loes.specs.Entry.{count};
ghost use Rattle.loes.specs.Encode.{field, block_ones, sub_block_ones, encode};
ghost use Rattle.loes.specs.Held.{entry_held, Holds};
ghost use Rattle.loes.specs.Model.{writes};
ghost use Rattle.loes.specs.Read.{level_bytes, edge_bytes, block_bytes, sub_block_bytes, body_at, start3, start4, end_of};
ghost use Rattle.encoding.specs.Fields.{tag_of};
ghost use Rattle.build.specs.Writing.{HoldsOnly, standing, Shaped, shape, indexed, written_outcome};

pub mod seen;

use bits::EdgeOffset;
use encoding::Encoding;
use encoding::field::Field;
use loes::Refusal;
use seen::Seen;

// A number in K bytes at the front of a buffer, most significant byte first.
fn put<const K: usize>(out: &mut [u8], n: usize)
    requires { (K ≤ 8) × (K ≤ length out.old) }
    ensures { out.new ≡ front (big_endian K n) out.old }
{
    let bytes = (n as u64).to_be_bytes();
    out[..K].copy_from_slice(&bytes[8 - K..]);
}

// A field's head: its tag, and the length of its body.
fn put_head(out: &mut [u8], kind: Field, n: usize)
    requires { head_bytes ≤ length out.old }
    ensures { out.new ≡ front (tag_of kind ∷ big_endian length_bytes n) out.old }
{
    out[0] = kind.tag();
    put::<{ Encoding::LENGTH_BYTES }>(&mut out[Encoding::TAG_BYTES..], n);
}

// A field of numbers, K bytes each: its head, and they behind it one after another.
fn put_numbers<const K: usize>(out: &mut [u8], kind: Field, numbers: &[usize])
    requires { (K ≤ 8) × (head_bytes + K * length numbers.now ≤ length out.old) }
    ensures { out.new ≡ front (field (tag_of kind) (big_endians K (λ (j : ℕ). get_or numbers.now j 0) (length numbers.now))) out.old }
{
    put_head(out, kind, K * numbers.len());
    for (j, &n) in numbers.iter().enumerate() {
        put::<K>(&mut out[Encoding::HEAD_BYTES + K * j..], n);
    }
}

// ---- Counting
// Where each level ends; returns the number of members.
fn level_ends(edges: &[u8], b: usize, ends: &mut [usize]) -> usize
    requires { Holds (length ends.old) b edges.now × (length edges.now ≤ max_edges / 8) }
    ensures { Shaped (length ends.old) b edges.now ends.new result }
{
    let c = encoding::roots_of(b);
    let mut seen = Seen::none(edges);
    let mut n = 0;
    for place in ends.iter_mut() {
        let end = 2 * (c + n);
        *place = end;
        seen = seen.count_to(end / 8);
        n = seen.ones_at(EdgeOffset(end));
    }
    c + n - b / 2
}

// The members alone, of sets of whatever width: the set bits of all edges less the records that they lead to.
pub fn members_of(m: usize, b: usize, edges: &[u8]) -> usize
    requires { Holds m b edges.now × (length edges.now ≤ max_edges / 8) }
    ensures { result ≡ count (entry_held m b edges.now) }
{
    let n = Seen::none(edges).count_to(b / 8).ones_at(EdgeOffset(b));
    encoding::roots_of(b) + n - b / 2
}

// ---- The fields
// What stands before the edges: fields 1 to 3, each behind the one before it, and field 4's head.
fn put_shape(out: &mut [u8], b: usize, n: usize, ends: &[usize])
    requires { (body_at start3 + level_bytes (length ends.now) + head_bytes ≤ length out.old) × (length ends.now ≤ max_width) × (b ≤ max_edges) }
    ensures { out.new ≡ front (shape b n ends.now) out.old }
{
    put_numbers::<{ Encoding::WIDTH_BYTES }>(out, Field::Width, &[ends.len()]);
    put_numbers::<{ Encoding::COUNT_BYTES }>(&mut out[Encoding::START2..], Field::Count, &[n]);
    put_numbers::<{ Encoding::LEVEL_ENTRY }>(&mut out[Encoding::START3..], Field::Levels, ends);
    let field4 = Encoding::LEVELS_AT + Encoding::LEVEL_ENTRY * ends.len();
    put_head(&mut out[field4..], Field::Edges, bits::bytes_for(b));
}

// The bodies of fields 5 and 6: for each started block of the edges the set bits before it, and for each started sub-block those of its block before it. A block's are written again at each of its sub-blocks.
fn put_counts(edges: &[u8], b: usize, blocks: &mut [u8], sub_blocks: &mut [u8])
    requires { (length edges.now ≡ edge_bytes b) × (b ≤ max_edges) × (block_bytes b ≤ length blocks.old) × (sub_block_bytes b ≤ length sub_blocks.old) }
    ensures of_blocks { blocks.new ≡ front (big_endians block_entry (block_ones (bits_in edges.now b)) (started block_bits b)) blocks.old }
    ensures of_sub_blocks { sub_blocks.new ≡ front (big_endians sub_block_entry (sub_block_ones (bits_in edges.now b)) (started sub_block_bits b)) sub_blocks.old }
{
    let mut seen = Seen::none(edges);
    let mut base = 0;
    for j in 0..bits::started_by(b, Encoding::SUB_BLOCK_BITS) {
        seen = seen.count_to(Encoding::SUB_BLOCK_BYTES * j);
        base = encoding::block_base(j, base, seen.ones);
        let at = Encoding::BLOCK_ENTRY * (j / Encoding::SUB_BLOCKS);
        put::<{ Encoding::BLOCK_ENTRY }>(&mut blocks[at..], base);
        let next = Encoding::SUB_BLOCK_ENTRY * j;
        put::<{ Encoding::SUB_BLOCK_ENTRY }>(&mut sub_blocks[next..], seen.ones - base);
    }
}

// Fields 5 and 6 behind the edges, with which the buffer begins.
fn put_index(out: &mut [u8], b: usize)
    requires { (edge_bytes b + head_bytes + block_bytes b + head_bytes + sub_block_bytes b ≤ length out.old) × (b ≤ max_edges) }
    ensures { out.new ≡ front (indexed b (take (edge_bytes b) out.old)) out.old }
{
    let blocks = Encoding::BLOCK_ENTRY * bits::started_by(b, Encoding::BLOCK_BITS);
    let sub_blocks = Encoding::SUB_BLOCK_ENTRY * bits::started_by(b, Encoding::SUB_BLOCK_BITS);
    let (edges, index) = out.split_at_mut(bits::bytes_for(b));
    let (field5, field6) = index.split_at_mut(Encoding::HEAD_BYTES + blocks);
    put_head(field5, Field::Blocks, blocks);
    put_head(field6, Field::SubBlocks, sub_blocks);
    put_counts(
        edges,
        b,
        &mut field5[Encoding::HEAD_BYTES..],
        &mut field6[Encoding::HEAD_BYTES..],
    );
}

// ---- The length
// Where the edges stand in an encoding of width m: behind field 4's head. The places up to there are the same for all sets of a width.
pub fn edges_start(m: usize) -> usize
    requires { m ≤ max_width }
    ensures { result ≡ body_at (start4 m) }
{
    let e = Encoding::new(m, 0, 0);
    e.edges
}

// The length of an encoding of width m with b edge bits, however many its members.
pub fn length_of(m: usize, b: usize) -> usize
    requires { (m ≤ max_width) × (b ≤ max_edges) }
    ensures { result ≡ end_of m b }
{
    let e = Encoding::new(m, 0, b);
    encoding::end_of(e)
}

// The test of 14: whether a buffer of a length is too short for it.
pub fn too_short(m: usize, b: usize, room: usize) -> bool
    requires { (m ≤ max_width) × (b ≤ max_edges) }
    ensures { result ≡ ltb room (end_of m b) }
{
    room < length_of(m, b)
}

// ---- The writer
// The encoding of the entry that edge bytes hold, at the front of a buffer in which they stand in their place already: every other field, around them.
pub fn write_around_edges(m: usize, b: usize, out: &mut [u8])
    requires { (end_of m b ≤ length out.old) × HoldsOnly m b (standing m b out.old) }
    ensures { out.new ≡ front (encode (entry_held m b (standing m b out.old))) out.old }
{
    let (before, rest) = out.split_at_mut(edges_start(m));
    let mut room = [0usize; Encoding::MAX_WIDTH];
    let ends = &mut room[..m];
    let count = level_ends(&rest[..bits::bytes_for(b)], b, ends);
    put_shape(before, b, count, ends);
    put_index(rest, b);
}

// The same from edge bytes elsewhere, which are put in their place first.
pub fn write_fitting(m: usize, b: usize, edges: &[u8], out: &mut [u8])
    requires { (end_of m b ≤ length out.old) × HoldsOnly m b edges.now }
    ensures { out.new ≡ front (encode (entry_held m b edges.now)) out.old }
{
    let at = edges_start(m);
    out[at..at + edges.len()].copy_from_slice(edges);
    write_around_edges(m, b, out);
}

// The same if it fits: nothing is written before that is known.
pub fn write(m: usize, b: usize, edges: &[u8], out: &mut [u8]) -> Result<usize, Refusal>
    requires { HoldsOnly m b edges.now }
    ensures { written_outcome result out.new ≡ (writes [] (entry_held m b edges.now ∷ []) (out.old ∷ [])).outcome }
{
    if too_short(m, b, out.len()) {
        return Err(Refusal::ShortBuffer);
    }
    write_fitting(m, b, edges, out);
    Ok(length_of(m, b))
}
