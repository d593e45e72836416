// Questions to an encoding: one descent behind contains, index_of and lower_bound, one select behind key_at.
#![tactic(auto)]

ghost use Rattle.std.specs.Prelude.{◌+◌, ◌-◌, ◌*◌, ◌/◌, ◌<◌, ◌≤◌, ◌≡◌, true, false, ◌&&◌, not, ◌||◌, [], length, get_or, drop, eqb, leb, ltb};
ghost use Rattle.loes.specs.Limits.{max_width, max_edges, max_bytes, block_bits, sub_block_bits};
ghost use Rattle.loes.specs.Bytes.{bits_in, bits_value, byte_of, pack_bits, front};
ghost use Rattle.loes.specs.Edges.{ones, rank};
ghost use Rattle.loes.specs.Entry.{key_bytes, keys_of, count, edges_of};
ghost use Rattle.loes.specs.Encode.{block_ones, sub_block_ones};
ghost use Rattle.loes.specs.Read.{entry_in};
ghost use Rattle.loes.specs.Model.{contains, index_of, lower_bound, key_at};
ghost use Rattle.loes.specs.Calls.{contains_call, index_of_call, key_at_call, lower_bound_call};
ghost use Rattle.loes.specs.Cursor.{path_of, key_of_path};
ghost use Rattle.bits.specs.Tables.{select};
ghost use Rattle.query.specs.Descent.{edge_from, DownTo, Way, no_key, Sought};
ghost use Rattle.query.specs.Select.{numbered, InByte, LastBlock, LastBy, level_start};
ghost use Rattle.query.specs.Answers.{membership_outcome, lookup_outcome, bound_outcome, key_outcome};

use bits::{EdgeOffset, MemberIndex, RecordIndex};
use encoding::Encoding;
use encoding::opening::Opened;
use loes::Refusal;

// ---- The descent
// A descent on its way: the record of the key's prefix, or the one it would have, and whether that prefix is found.
// No Option: the descent goes on from the record of a prefix that is not found, too.
#[derive(Clone, Copy)]
pub struct Spot {
    pub record: RecordIndex,
    pub found: bool,
}

// The edge that a descent takes.
fn edge_from(at: Spot, bit: bool) -> EdgeOffset
    requires { at.record.0 ≤ max_edges / 2 }
    ensures { result.0 ≡ edge_from at.record.0 at.found bit }
{
    EdgeOffset(2 * at.record.0 + usize::from(at.found && bit))
}

// One level down: one rank.
fn step_down(o: Opened<'_>, at: Spot, bit: bool) -> Spot
    requires { (edge_from at.record.0 at.found bit ≤ o.encoding.bits) × (at.found ≡ true → edge_from at.record.0 at.found bit < o.encoding.bits) }
    ensures { DownTo (edges_of (entry_in o.entry.bytes.now)) at bit result }
{
    let edge = edge_from(at, bit);
    Spot {
        record: RecordIndex(o.ones_before(edge) + 1),
        found: at.found && o.edge_at(edge),
    }
}

// So many levels down along a key or a prefix: the record number that its first bits have or would have there; in the empty set there is none.
pub fn descend(o: Opened<'_>, key: &[u8], levels: usize) -> Spot
    requires { (levels ≤ o.encoding.width) × (levels ≤ 8 * length key.now) }
    ensures { Way (entry_in o.entry.bytes.now) key.now levels result.record.0 result.found }
{
    if o.encoding.bits == 0 {
        return Spot {
            record: RecordIndex(0),
            found: false,
        };
    }
    let mut at = Spot {
        record: RecordIndex(0),
        found: true,
    };
    for d in 0..levels {
        at = step_down(o, at, bits::bit_at(key, d));
    }
    at
}

// ---- Keys as they are given
// Refusal 8, of a key or a prefix of m bits: not as many bytes as they take, or an unused bit set.
pub fn bad_key(m: usize, key: &[u8]) -> bool
    requires { m ≤ max_width }
    ensures { result ≡ no_key m key.now }
{
    let t = bits::bytes_for(m);
    key.len() != t || (m != 0 && bits::unused_set(key, t, m))
}

// A key among the members: how many are smaller, and whether it is one.
// No Option: `lower_bound` asks how many are smaller than a key that is no member, too.
#[derive(Clone, Copy)]
pub struct Position {
    pub below: MemberIndex,
    pub found: bool,
}

// Where a key is among the members, or refusal 8.
fn locate(o: Opened<'_>, key: &[u8]) -> Result<Position, Refusal>
    ensures { Sought (entry_in o.entry.bytes.now) key.now result }
{
    if bad_key(o.encoding.width, key) {
        return Err(Refusal::BadKey);
    }
    let at = descend(o, key, o.encoding.width);
    Ok(Position {
        below: MemberIndex(at.record.0 - o.encoding.bits / 2),
        found: at.found,
    })
}

// ---- Select
// A set bit of bytes, by a byte: so many set bits are before it from that byte on.
#[derive(Clone, Copy)]
struct SetBit {
    byte: usize,
    number: usize,
}

// The same bit by the byte that it is in, found byte by byte.
// No `for`: tried, to the end of the bytes and over eight of them; the tests of its end, which a search that ends by its count does not need, made `key_at` a tenth to a sixth slower.
fn find_in_bytes(edges: &[u8], from: SetBit) -> SetBit
    requires { (length edges.now ≤ max_bytes) × (numbered edges.now from.byte from.number < ones (bits_in edges.now (8 * length edges.now))) }
    ensures { InByte edges.now (numbered edges.now from.byte from.number) result.byte result.number }
{
    let mut at = from;
    loop {
        let ones = bits::tally(edges[at.byte]);
        if at.number < ones {
            return at;
        }
        at.number -= ones;
        at.byte += 1;
    }
}

// The same, eight bytes at a time first, with no `for` either: the set bit has eight bytes behind its own.
// No one function for both steps: it would take the count as a closure, with a contract of its own, and is no plainer.
fn find_from(edges: &[u8], from: SetBit) -> SetBit
    requires { (length edges.now ≤ max_bytes) × (numbered edges.now from.byte from.number < ones (bits_in edges.now (8 * (length edges.now - 8)))) }
    ensures { InByte edges.now (numbered edges.now from.byte from.number) result.byte result.number }
{
    let mut at = from;
    loop {
        let ones = bits::word_ones(edges, at.byte);
        if at.number < ones {
            return find_in_bytes(edges, at);
        }
        at.number -= ones;
        at.byte += 8;
    }
}

// The set bits before block j.
fn block_start(o: Opened<'_>, j: usize) -> usize
    requires { block_bits * j < o.encoding.bits }
    ensures { result ≡ block_ones (edges_of (entry_in o.entry.bytes.now)) j }
{
    bits::number::<8>(o.bytes, o.encoding.blocks + Encoding::BLOCK_ENTRY * j)
}

// The set bits of its block before sub-block j.
fn sub_block_start(o: Opened<'_>, j: usize) -> usize
    requires { sub_block_bits * j < o.encoding.bits }
    ensures { result ≡ sub_block_ones (edges_of (entry_in o.entry.bytes.now)) j }
{
    bits::number::<2>(
        o.bytes,
        o.encoding.sub_blocks + Encoding::SUB_BLOCK_ENTRY * j,
    )
}

// The last block with at most k set bits before it.
fn block_of(o: Opened<'_>, k: usize) -> usize
    requires { 0 < o.encoding.bits }
    ensures { LastBlock (edges_of (entry_in o.entry.bytes.now)) o.entry.encoding.bits k result }
{
    let last = (o.encoding.bits - 1) / Encoding::BLOCK_BITS;
    for j in 0..last {
        if k < block_start(o, j + 1) {
            return j;
        }
    }
    last
}

// Whether sub-block j is there, with at most k set bits of its block before it.
fn begins_by(o: Opened<'_>, j: usize, k: usize) -> bool
    requires { j ≤ max_edges }
    ensures { result ≡ (ltb (sub_block_bits * j) o.entry.encoding.bits && leb (sub_block_ones (edges_of (entry_in o.entry.bytes.now)) j) k) }
{
    Encoding::SUB_BLOCK_BITS * j < o.encoding.bits && sub_block_start(o, j) <= k
}

// The last sub-block of a block with at most k set bits of the block before it, by halving.
// No `binary_search`: the entries are pairs of bytes in the encoding, and no slice of numbers.
fn sub_block_of(o: Opened<'_>, block: usize, k: usize) -> usize
    requires { block_bits * block < o.encoding.bits }
    ensures { LastBy (edges_of (entry_in o.entry.bytes.now)) o.entry.encoding.bits block k result }
{
    let mut low = Encoding::SUB_BLOCKS * block;
    let mut high = low + Encoding::SUB_BLOCKS;
    while low + 1 < high {
        let mid = (low + high) / 2;
        if begins_by(o, mid, k) {
            low = mid;
        } else {
            high = mid;
        }
    }
    low
}

// The same, by a sub-block of the block that may be it or the one behind it, if the entries say so.
fn sub_block_near(o: Opened<'_>, block: usize, k: usize, hint: usize) -> usize
    requires { block_bits * block < o.encoding.bits }
    ensures { LastBy (edges_of (entry_in o.entry.bytes.now)) o.entry.encoding.bits block k result }
{
    if hint / Encoding::SUB_BLOCKS == block {
        if begins_by(o, hint, k) {
            if !begins_by(o, hint + 1, k) {
                return hint;
            }
        } else if hint % Encoding::SUB_BLOCKS != 0 && begins_by(o, hint - 1, k) {
            return hint - 1;
        }
    }
    sub_block_of(o, block, k)
}

// The edge that leads to a record: the set bit of the record's number less 1, by block, sub-block, words and bytes. A hint that is its sub-block, or the one behind that, saves a search.
fn find_by_index(o: Opened<'_>, r: RecordIndex, hint: usize) -> SetBit
    requires { (0 < r.0) × (r.0 - 1 < ones (edges_of (entry_in o.bytes.now))) }
    ensures { InByte (drop o.entry.encoding.edges o.entry.bytes.now) (r.0 - 1) result.byte result.number }
{
    let k = r.0 - 1;
    let block = block_of(o, k);
    let in_block = k - block_start(o, block);
    let sub = sub_block_near(o, block, in_block, hint);
    let first = SetBit {
        byte: Encoding::SUB_BLOCK_BYTES * sub,
        number: in_block - sub_block_start(o, sub),
    };
    find_from(&o.bytes[o.encoding.edges..], first)
}

// The set bit that has k set bits before it from an offset on.
fn find_behind(o: Opened<'_>, from: EdgeOffset, k: usize) -> SetBit
    requires { (rank (edges_of (entry_in o.bytes.now)) from.0 + k < ones (edges_of (entry_in o.bytes.now))) }
    ensures { InByte (drop o.entry.encoding.edges o.entry.bytes.now) (rank (edges_of (entry_in o.entry.bytes.now)) from.0 + k) result.byte result.number }
{
    let byte = from.0 / 8;
    let before = bits::tally_part(o.bytes, o.encoding.edges + byte, from.0 % 8);
    let first = SetBit {
        byte,
        number: before + k,
    };
    find_from(&o.bytes[o.encoding.edges..], first)
}

// So few set bits are counted from the level's start.
const FEW_RECORDS: usize = 128;

// The edge that leads to a record, which is number k of its level; the edge's level begins at an offset.
fn find_edge(o: Opened<'_>, r: RecordIndex, from: EdgeOffset, k: usize, hint: usize) -> SetBit
    requires { (0 < r.0) × (r.0 - 1 < ones (edges_of (entry_in o.bytes.now))) × (rank (edges_of (entry_in o.bytes.now)) from.0 + k ≡ r.0 - 1) }
    ensures { InByte (drop o.entry.encoding.edges o.entry.bytes.now) (r.0 - 1) result.byte result.number }
{
    if k < FEW_RECORDS {
        return find_behind(o, from, k);
    }
    find_by_index(o, r, hint)
}

// The offset of that edge: its place in its byte is in the table.
fn edge_up(o: Opened<'_>, r: RecordIndex, from: EdgeOffset, k: usize, hint: usize) -> EdgeOffset
    requires { (0 < r.0) × (r.0 - 1 < ones (edges_of (entry_in o.bytes.now))) × (rank (edges_of (entry_in o.bytes.now)) from.0 + k ≡ r.0 - 1) }
    ensures { result.0 ≡ select (edges_of (entry_in o.entry.bytes.now)) (r.0 - 1) }
{
    let found = find_edge(o, r, from, k, hint);
    let x = o.bytes[o.encoding.edges + found.byte];
    EdgeOffset(8 * found.byte + bits::place(x, found.number))
}

// Where level d begins.
fn level_start(o: Opened<'_>, d: usize) -> EdgeOffset
    requires { d ≤ o.encoding.width }
    ensures { result.0 ≡ level_start (entry_in o.entry.bytes.now) d }
{
    if d == 0 {
        return EdgeOffset(0);
    }
    o.level_end(d - 1)
}

// ---- Paths and their keys
// The offsets of member i's edges, from the last level up.
fn path_at(o: Opened<'_>, i: MemberIndex, offsets: &mut [usize])
    requires { (i.0 < o.encoding.count) × (o.encoding.width ≤ length offsets.old) }
    ensures { offsets.new ≡ front (path_of (entry_in o.entry.bytes.now) (get_or (keys_of (entry_in o.entry.bytes.now)) i.0 [])) offsets.old }
{
    let mut record = o.encoding.bits / 2 + i.0;
    let mut end = o.encoding.bits;
    let mut last = o.encoding.bits;
    // where the edge might be: as far above the last as that one above the one before
    let mut guess = o.encoding.bits;
    for d in (0..o.encoding.width).rev() {
        let start = level_start(o, d);
        let hint = guess / Encoding::SUB_BLOCK_BITS;
        let edge = edge_up(o, RecordIndex(record), start, record - end / 2, hint);
        offsets[d] = edge.0;
        guess = (2 * edge.0).saturating_sub(last);
        last = edge.0;
        end = start.0;
        record = edge.0 / 2;
    }
}

// The low bits of offsets as one number, the first the highest.
fn low_bits(offsets: &[usize]) -> usize
    requires { length offsets.now ≤ 8 }
    ensures { result ≡ bits_value (key_of_path offsets.now (length offsets.now)) 0 }
{
    let mut bits = 0;
    for offset in offsets {
        bits = 2 * bits + offset % 2;
    }
    bits
}

// Writes the key of a path to the front of a buffer: eight bits a byte, then what is left, with unused bits 0.
// It stays a function when compiled, so that a step is short enough to stand in the loop of a walk.
#[inline(never)]
pub fn write_key(offsets: &[usize], m: usize, out: &mut [u8]) -> usize
    requires { (m ≤ max_width) × (m ≤ length offsets.now) × (key_bytes m ≤ length out.old) }
    ensures { (result ≡ key_bytes m) × (out.new ≡ front (pack_bits (key_of_path offsets.now m)) out.old) }
{
    let whole = m / 8;
    for j in 0..whole {
        out[j] = low_bits(&offsets[8 * j..8 * j + 8]) as u8;
    }
    let left = m % 8;
    if left == 0 {
        return whole;
    }
    out[whole] = (low_bits(&offsets[8 * whole..m]) << (8 - left)) as u8;
    whole + 1
}

// ---- Questions behind the check
// Whether a key is a member.
pub fn contains_in(o: Opened<'_>, key: &[u8]) -> Result<bool, Refusal>
    ensures { membership_outcome result ≡ (contains (entry_in o.entry.bytes.now) key.now).outcome }
{
    Ok(locate(o, key)?.found)
}

// A key's index among the members, or that it is none.
pub fn index_of_in(o: Opened<'_>, key: &[u8]) -> Result<Option<MemberIndex>, Refusal>
    ensures { lookup_outcome result ≡ (index_of (entry_in o.entry.bytes.now) key.now).outcome }
{
    let at = locate(o, key)?;
    Ok(at.found.then_some(at.below))
}

// The index of the smallest member not below a key, or that there is none.
pub fn lower_bound_in(o: Opened<'_>, key: &[u8]) -> Result<Option<MemberIndex>, Refusal>
    ensures { bound_outcome result ≡ (lower_bound (entry_in o.entry.bytes.now) key.now).outcome }
{
    let at = locate(o, key)?;
    Ok((at.below.0 != o.encoding.count).then_some(at.below))
}

// Writes the member at an index to the front of a buffer, and tells its bytes.
pub fn key_at_in(o: Opened<'_>, i: MemberIndex, out: &mut [u8]) -> Result<usize, Refusal>
    ensures { key_outcome result out.new ≡ (key_at (entry_in o.entry.bytes.now) i.0 out.old).outcome }
{
    if o.encoding.count <= i.0 {
        return Err(Refusal::OutOfRange);
    }
    let m = o.encoding.width;
    if out.len() < bits::bytes_for(m) {
        return Err(Refusal::ShortBuffer);
    }
    let mut offsets = [0usize; Encoding::MAX_WIDTH];
    path_at(o, i, &mut offsets);
    Ok(write_key(&offsets, m, out))
}

// ---- Calls: the check, then the question
// Whether a key is a member (document 01: present or not).
pub fn contains(l: &[u8], key: &[u8]) -> Result<bool, Refusal>
    ensures { membership_outcome result ≡ contains_call l.now key.now }
{
    contains_in(encoding::open(l)?, key)
}

// A key's index among the members, or that it is none (document 01: lot).
pub fn index_of(l: &[u8], key: &[u8]) -> Result<Option<MemberIndex>, Refusal>
    ensures { lookup_outcome result ≡ index_of_call l.now key.now }
{
    index_of_in(encoding::open(l)?, key)
}

// The index of the smallest member not below a key, or that there is none (document 01: seek).
pub fn lower_bound(l: &[u8], key: &[u8]) -> Result<Option<MemberIndex>, Refusal>
    ensures { bound_outcome result ≡ lower_bound_call l.now key.now }
{
    lower_bound_in(encoding::open(l)?, key)
}

// Writes the member at an index to the front of a buffer (document 01: ticket of a lot).
pub fn key_at(l: &[u8], i: MemberIndex, out: &mut [u8]) -> Result<usize, Refusal>
    ensures { key_outcome result out.new ≡ key_at_call l.now i.0 out.old }
{
    key_at_in(encoding::open(l)?, i, out)
}
