// An opened encoding: reading the fields, the full check, and rank behind it.
#![tactic(auto)]

ghost use Rattle.std.specs.Prelude.{ℕ, ◌+◌, ◌-◌, ◌*◌, ◌/◌, ◌%◌, ◌^◌, ◌<◌, ◌≤◌, ◌≡◌, false, length, drop, get_or};
ghost use Rattle.loes.specs.Limits.{max_width, max_edges, sub_block_bits, sub_blocks, sub_block_size};
ghost use Rattle.loes.specs.Bytes.{same_numbers};
ghost use Rattle.loes.specs.Edges.{rank};
ghost use Rattle.loes.specs.Prefixes.{roots};
ghost use Rattle.loes.specs.Entry.{edges_of};
ghost use Rattle.loes.specs.Encode.{level_end, encode};
ghost use Rattle.loes.specs.Refusals.{first_of};
ghost use Rattle.loes.specs.Read.{level_bytes, body_at, start3, start4, end_of, level_at, entry_in, field_tests, head_tests, tail_tests};
ghost use Rattle.loes.specs.Calls.{open_call, rank_call};
ghost use Rattle.bits.specs.Words.{Scanned};
ghost use Rattle.encoding.specs.Opened.{Placed, FieldsFit, Counted, edges_at};
ghost use Rattle.encoding.specs.Fields.{tag_of, body_bytes, laid_by, refusal_of, Fields, Parsed, Checks};
ghost use Rattle.encoding.specs.Counting.{count_sub_block, counted_to, BlockFits};
ghost use Rattle.encoding.specs.Agree.{Decides, EntriesAt, BlockBase, near, BytesTallied, Whole, Last, Levelled};
ghost use Rattle.encoding.specs.Answers.{told_outcome, ranked_outcome};

pub mod field;
pub mod opening;

use bits::EdgeOffset;
use field::Field;
use loes::Refusal;
use opening::Opened;

// The numbers of an encoding, and where the bodies of fields 4 to 6 begin.
#[derive(Clone, Copy)]
pub struct Encoding {
    // m
    pub width: usize,
    // n
    pub count: usize,
    // b
    pub bits: usize,
    pub edges: usize,
    pub blocks: usize,
    pub sub_blocks: usize,
}

impl Encoding {
    // The greatest width of a key, in bits.
    pub const MAX_WIDTH: usize = 256;
    // The bytes of the widest keys.
    pub const MAX_KEY_BYTES: usize = Encoding::MAX_WIDTH / 8;
    // The most bits that an edge sequence may have.
    pub const MAX_EDGES: usize = 524_280;
    // The edge bits of a block.
    pub const BLOCK_BITS: usize = 65_536;
    // The edge bits of a sub-block.
    pub const SUB_BLOCK_BITS: usize = 512;
    // The edge bytes of a sub-block.
    pub const SUB_BLOCK_BYTES: usize = Encoding::SUB_BLOCK_BITS / 8;
    // The sub_blocks of a block.
    pub const SUB_BLOCKS: usize = Encoding::BLOCK_BITS / Encoding::SUB_BLOCK_BITS;

    // The bytes of a field's tag.
    pub const TAG_BYTES: usize = 1;
    // The bytes of its length.
    pub const LENGTH_BYTES: usize = 2;
    // The bytes of its head: tag and length.
    pub const HEAD_BYTES: usize = Encoding::TAG_BYTES + Encoding::LENGTH_BYTES;
    // The bytes of the body of field 1.
    pub const WIDTH_BYTES: usize = 2;
    // The bytes of the body of field 2.
    pub const COUNT_BYTES: usize = 4;
    // The bytes of an entry of field 3.
    pub const LEVEL_ENTRY: usize = 4;
    // The bytes of an entry of field 5.
    pub const BLOCK_ENTRY: usize = 8;
    // The bytes of an entry of field 6.
    pub const SUB_BLOCK_ENTRY: usize = 2;

    // Where the body of field 1 begins; the field begins at 0.
    pub const WIDTH_AT: usize = Encoding::HEAD_BYTES;
    // Where field 2 begins.
    pub const START2: usize = Encoding::WIDTH_AT + Encoding::WIDTH_BYTES;
    // Where the body of field 2 begins.
    pub const COUNT_AT: usize = Encoding::START2 + Encoding::HEAD_BYTES;
    // Where field 3 begins.
    pub const START3: usize = Encoding::COUNT_AT + Encoding::COUNT_BYTES;
    // Where the body of field 3 begins.
    pub const LEVELS_AT: usize = Encoding::START3 + Encoding::HEAD_BYTES;

    // Of width m, n keys and b edge bits: each field begins behind the one before it.
    pub fn new(width: usize, count: usize, bits: usize) -> Encoding
        requires { (width ≤ max_width) × (bits ≤ max_edges) }
        ensures { Placed width count bits result }
    {
        let edges = Encoding::LEVELS_AT + Encoding::LEVEL_ENTRY * width + Encoding::HEAD_BYTES;
        let blocks = edges + bits::bytes_for(bits) + Encoding::HEAD_BYTES;
        let started = bits::started_by(bits, Encoding::BLOCK_BITS);
        let sub_blocks = blocks + Encoding::BLOCK_ENTRY * started + Encoding::HEAD_BYTES;
        Encoding {
            width,
            count,
            bits,
            edges,
            blocks,
            sub_blocks,
        }
    }
}

// Where an encoding ends: behind the body of field 6.
pub fn end_of(e: Encoding) -> usize
    requires { Placed e.width e.count e.bits e × (e.width ≤ max_width) × (e.bits ≤ max_edges) }
    ensures { result ≡ end_of e.width e.bits }
{
    e.sub_blocks + Encoding::SUB_BLOCK_ENTRY * bits::started_by(e.bits, Encoding::SUB_BLOCK_BITS)
}

// ---- Reading the fields
// What a tag says: the length laid down for its field's body.
fn laid_by(tag: u8, width: usize, bits: usize) -> Result<usize, Refusal>
    requires { (width ≤ max_width) × (bits ≤ max_edges) }
    ensures { result ≡ laid_by tag width bits }
{
    match tag {
        1 => Ok(Encoding::WIDTH_BYTES),
        2 => Ok(Encoding::COUNT_BYTES),
        3 => Ok(Encoding::LEVEL_ENTRY * width),
        4 => Ok(bits::bytes_for(bits)),
        5 => Ok(Encoding::BLOCK_ENTRY * bits::started_by(bits, Encoding::BLOCK_BITS)),
        6 => Ok(Encoding::SUB_BLOCK_ENTRY * bits::started_by(bits, Encoding::SUB_BLOCK_BITS)),
        0 | 7..=255 => Err(Refusal::WrongTag),
    }
}

// Tests the field whose turn it is and which begins at a place: 1 for its head, 2, 3, 1 for its body.
fn check_field(l: &[u8], at: usize, turn: Field, width: usize, bits: usize) -> Result<(), Refusal>
    requires { (at ≤ length l.now) × (width ≤ max_width) × (bits ≤ max_edges) }
    ensures { refusal_of result ≡ first_of (field_tests (tag_of turn) (body_bytes (tag_of turn) width bits) l.now at) }
{
    let left = l.len() - at;
    if left < Encoding::HEAD_BYTES {
        return Err(Refusal::Truncated);
    }
    let tag = l[at];
    let n = laid_by(tag, width, bits)?;
    if tag != turn.tag() {
        return Err(Refusal::WrongTag);
    }
    if bits::number::<2>(l, at + Encoding::TAG_BYTES) != n {
        return Err(Refusal::WrongLength);
    }
    if left - Encoding::HEAD_BYTES < n {
        return Err(Refusal::Truncated);
    }
    Ok(())
}

// Tests fields 1 to 3: 4 follows field 1 and 5 follows field 3.
fn check_head(l: &[u8]) -> Result<(), Refusal>
    ensures { refusal_of result ≡ first_of (head_tests l.now) }
{
    check_field(l, 0, Field::Width, 0, 0)?;
    let width = bits::number::<2>(l, Encoding::WIDTH_AT);
    if width == 0 {
        return Err(Refusal::BadWidth);
    }
    if Encoding::MAX_WIDTH < width {
        return Err(Refusal::BadWidth);
    }
    check_field(l, Encoding::START2, Field::Count, width, 0)?;
    check_field(l, Encoding::START3, Field::Levels, width, 0)?;
    let last = Encoding::LEVELS_AT + Encoding::LEVEL_ENTRY * (width - 1);
    if Encoding::MAX_EDGES < bits::number::<4>(l, last) {
        return Err(Refusal::TooLarge);
    }
    Ok(())
}

// Tests fields 4 to 6, then 6.
fn check_tail(l: &[u8], e: Encoding) -> Result<(), Refusal>
    requires { Placed e.width e.count e.bits e × (e.width ≤ max_width) × (e.bits ≤ max_edges) × (start4 e.width ≤ length l.now) }
    ensures { refusal_of result ≡ first_of (tail_tests e.width e.bits l.now) }
{
    check_field(
        l,
        e.edges - Encoding::HEAD_BYTES,
        Field::Edges,
        e.width,
        e.bits,
    )?;
    check_field(
        l,
        e.blocks - Encoding::HEAD_BYTES,
        Field::Blocks,
        e.width,
        e.bits,
    )?;
    check_field(
        l,
        e.sub_blocks - Encoding::HEAD_BYTES,
        Field::SubBlocks,
        e.width,
        e.bits,
    )?;
    if end_of(e) < l.len() {
        return Err(Refusal::TrailingBytes);
    }
    Ok(())
}

// Every test before 7.
fn parse(l: &[u8]) -> Result<Encoding, Refusal>
    ensures { Parsed l.now result }
{
    check_head(l)?;
    let width = bits::number::<2>(l, Encoding::WIDTH_AT);
    let bits = bits::number::<4>(l, Encoding::LEVELS_AT + Encoding::LEVEL_ENTRY * (width - 1));
    let e = Encoding::new(width, bits::number::<4>(l, Encoding::COUNT_AT), bits);
    check_tail(l, e)?;
    Ok(e)
}

// ---- Rank
// So many edges are counted faster than looked up.
const NEAR: usize = 256;

// The counting behind every rank of an opened encoding, of which it sees one entry of field 5, one of field 6 and at most 64 bytes of field 4: it counts the set ones among their first n bits.
// The entries' sum and the part of the last byte are found once. Then few bytes are counted one by one, more by words: first those behind the last whole word, as one.
fn count_sub_block(block: usize, sub_block: usize, edges: &[u8], n: usize) -> usize
    requires { (block ≤ max_edges) × (sub_block ≤ max_edges) × (0 < n) × (n ≤ 8 * length edges.now) × (length edges.now ≤ sub_block_size) }
    ensures { result ≡ count_sub_block block sub_block edges.now n }
{
    let bit = n - 1;
    let last = bit / 8;
    let found = block + sub_block + bits::tally_part(edges, last, bit % 8 + 1);
    if last < 8 {
        return found + bits::tally_bytes(edges, 0, last);
    }
    let k = last % 8;
    let whole = last - k;
    let rest = bits::part_word(edges, whole, k);
    let mut sum = found + (u64::count_ones(rest) as usize);
    for i in 0..last / 8 {
        sum += bits::word_ones(edges, 8 * i);
    }
    sum
}

// The set bits before an offset, by the index fields: the counting is lent the entries and the bytes of the sub-block of the last bit before it, up to that bit's byte.
fn indexed_ones(l: &[u8], e: Encoding, o: EdgeOffset) -> usize
    requires { FieldsFit l.now e × BlockFits l.now e o.0 × (o.0 ≤ e.bits) }
    ensures { result ≡ counted_to l.now e o.0 }
{
    let n = o.0;
    if n == 0 {
        return 0;
    }
    let last = n - 1;
    let j = last / Encoding::BLOCK_BITS;
    let sub = last / Encoding::SUB_BLOCK_BITS;
    let block = bits::number::<8>(l, e.blocks + Encoding::BLOCK_ENTRY * j);
    let sub_block = bits::number::<2>(l, e.sub_blocks + Encoding::SUB_BLOCK_ENTRY * sub);
    let from = e.edges + Encoding::SUB_BLOCK_BYTES * sub;
    let upto = e.edges + last / 8 + 1;
    let counted = last % Encoding::SUB_BLOCK_BITS + 1;
    count_sub_block(block, sub_block, &l[from..upto], counted)
}

// The set bits before an offset, if n are set before another that is near before it: the other's byte and those behind it are counted, less the bits before the other in its byte.
fn ones_near(l: &[u8], e: Encoding, from: EdgeOffset, n: usize, o: EdgeOffset) -> usize
    requires { FieldsFit l.now e × (from.0 < o.0) × (o.0 ≤ from.0 + near) × (o.0 ≤ e.bits) × (n ≡ rank (edges_at l.now e) from.0) }
    ensures { result ≡ rank (edges_at l.now e) o.0 }
{
    let a = from.0;
    let last = o.0 - 1;
    let first = e.edges + a / 8;
    let at = e.edges + last / 8;
    let before = bits::tally_part(l, first, a % 8);
    let whole = bits::tally_bytes(l, first, at);
    let part = bits::tally_part(l, at, last % 8 + 1);
    n + whole + part - before
}

// The set bits before an offset, if n are set before another that is not behind it.
fn ones_on(l: &[u8], e: Encoding, from: EdgeOffset, n: usize, o: EdgeOffset) -> usize
    requires { FieldsFit l.now e × Counted l.now e × (from.0 ≤ o.0) × (o.0 ≤ e.bits) × (n ≡ rank (edges_at l.now e) from.0) }
    ensures { result ≡ rank (edges_at l.now e) o.0 }
{
    let far = o.0 - from.0;
    if far > NEAR {
        return indexed_ones(l, e, o);
    }
    if far == 0 {
        return n;
    }
    ones_near(l, e, from, n, o)
}

// ---- The check of 7
// The records of level 0: one, or none in the empty set.
pub fn roots_of(bits: usize) -> usize
    ensures { (result ≡ roots bits) × (result ≤ 1) }
{
    (0 < bits) as usize
}

// The set bits before a sub-block's block: those before the sub-block if it is its first, else the same as before.
pub fn block_base(j: usize, base: usize, ones: usize) -> usize
    ensures { (j % sub_blocks ≡ 0 → result ≡ ones) × ((j % sub_blocks ≡ 0 → ⊥) → result ≡ base) }
{
    if j % Encoding::SUB_BLOCKS == 0 {
        ones
    } else {
        base
    }
}

// Whether the entries of sub-block j and of its block fit n set bits before it, and `base` before its block: the block's is read at its first sub-block.
fn entries_agree(l: &[u8], e: Encoding, j: usize, base: usize, n: usize) -> bool
    requires { FieldsFit l.now e × (sub_block_bits * j < e.bits) × BlockBase l.now e j base n }
    ensures { Decides result (EntriesAt l.now e j n) }
{
    if j % Encoding::SUB_BLOCKS == 0 {
        let block = j / Encoding::SUB_BLOCKS;
        if bits::number::<8>(l, e.blocks + Encoding::BLOCK_ENTRY * block) != n {
            return false;
        }
    }
    bits::number::<2>(l, e.sub_blocks + Encoding::SUB_BLOCK_ENTRY * j) == n - base
}

// The lower bit of each of a word's 32 records, and of a byte's four.
const RECORDS: u64 = 0x5555_5555_5555_5555;

const BYTE_RECORDS: usize = 0x55;

// What is found in bytes: RECORDS as long as no record is empty, and the set bits.
#[derive(Clone, Copy)]
pub struct Scan {
    pub full: u64,
    pub ones: usize,
}

// So many words from a byte on: a record is empty if neither of its bits is set.
fn scan_words(l: &[u8], from: usize, words: usize) -> Scan
    requires { (words ≤ 8) × (from + 8 * words ≤ length l.now) }
    ensures { Scanned (drop from l.now) (8 * words) result.full result.ones }
{
    let mut full = RECORDS;
    let mut n: usize = 0;
    for i in 0..words {
        let x = bits::word(l, from + 8 * i);
        full = full & (x | (x >> 1));
        n += u64::count_ones(x) as usize;
    }
    Scan { full, ones: n }
}

// A whole sub-block: its eight words, by a loop of its own when compiled.
fn scan_sub_block(l: &[u8], from: usize) -> Option<usize>
    requires { from + sub_block_size ≤ length l.now }
    ensures { BytesTallied (drop from l.now) sub_block_size result }
{
    let p = scan_words(l, from, Encoding::SUB_BLOCK_BYTES / 8);
    if p.full != RECORDS {
        return None;
    }
    Some(p.ones)
}

// Fewer bytes, from..upto: whole words, then the bytes behind them as one.
fn part_ones(l: &[u8], from: usize, upto: usize) -> Option<usize>
    requires { (8 ≤ from) × (from ≤ upto) × (upto ≤ length l.now) × (upto ≤ from + sub_block_size) }
    ensures { BytesTallied (drop from l.now) (upto - from) result }
{
    let size = upto - from;
    let p = scan_words(l, from, size / 8);
    if p.full != RECORDS {
        return None;
    }
    let k = size % 8;
    let x = bits::part_word(l, upto - k, k);
    if RECORDS & (x | (x >> 1)) != RECORDS % (1u64 << (8 * k)) {
        return None;
    }
    Some(p.ones + (u64::count_ones(x) as usize))
}

// One pass over the whole edge bytes, sub-block by sub-block: no record is empty, and both index fields are right.
fn whole_ones(l: &[u8], e: Encoding) -> Option<usize>
    requires { FieldsFit l.now e }
    ensures { Whole l.now e result }
{
    let edges = e.edges;
    let whole = e.bits / Encoding::SUB_BLOCK_BITS;
    let mut base = 0;
    let mut n = 0;
    for j in 0..whole {
        base = block_base(j, base, n);
        if !entries_agree(l, e, j, base, n) {
            return None;
        }
        n += scan_sub_block(l, edges + Encoding::SUB_BLOCK_BYTES * j)?;
    }
    // The last, if it is not whole.
    if e.bits % Encoding::SUB_BLOCK_BITS == 0 {
        return Some(n);
    }
    base = block_base(whole, base, n);
    if !entries_agree(l, e, whole, base, n) {
        return None;
    }
    let rest = part_ones(
        l,
        edges + Encoding::SUB_BLOCK_BYTES * whole,
        edges + e.bits / 8,
    )?;
    Some(n + rest)
}

// What the lowest of the used bits of a byte counts.
fn lowest(used: usize) -> usize
    requires { used ≤ 8 }
    ensures { (result ≡ 2 ^ (8 - used)) × (0 < result) × (result ≤ 256) }
{
    1usize << (8 - used)
}

// The last byte, if it is not whole: its left-over bits are clear, and with them set no record is empty.
fn last_ones(l: &[u8], e: Encoding) -> Option<usize>
    requires { FieldsFit l.now e }
    ensures { Last l.now e result }
{
    let used = e.bits % 8;
    if used == 0 {
        return Some(0);
    }
    let at = e.edges + e.bits / 8;
    let x = l[at] as usize;
    let unit = lowest(used);
    if x % unit != 0 {
        return None;
    }
    let y = x + (unit - 1);
    if BYTE_RECORDS & (y | (y >> 1)) != BYTE_RECORDS {
        return None;
    }
    Some(usize::count_ones(x) as usize)
}

// Whether every level ends at 0, as in the empty set: a short loop, with nothing to count.
fn levels_empty(l: &[u8], width: usize) -> bool
    requires { (width ≤ max_width) × (body_at start3 + level_bytes width ≤ length l.now) }
    ensures { Decides result ((d : ℕ) → d < width → level_at l.now d ≡ 0) }
{
    for d in 0..width {
        if bits::number::<4>(l, Encoding::LEVELS_AT + Encoding::LEVEL_ENTRY * d) != 0 {
            return false;
        }
    }
    true
}

// Whether each level ends at twice the records so far: the roots, and one for each set bit before the level.
// The next claim is read before the set bits to this one are counted, so that no read waits for a count.
fn levels_counted(l: &[u8], e: Encoding) -> bool
    requires { FieldsFit l.now e × Counted l.now e }
    ensures { Decides result (Levelled l.now e) }
{
    let roots = roots_of(e.bits);
    let mut from = 0;
    let mut start = 0;
    let mut n = 0;
    for d in 0..e.width {
        let end = bits::number::<4>(l, Encoding::LEVELS_AT + Encoding::LEVEL_ENTRY * d);
        n = ones_on(l, e, EdgeOffset(from), n, EdgeOffset(start));
        if end != 2 * (roots + n) {
            return false;
        }
        from = start;
        start = end.min(e.bits);
    }
    true
}

// Whether field 3 has the ends of the levels.
fn levels_agree(l: &[u8], e: Encoding) -> bool
    requires { FieldsFit l.now e × Counted l.now e }
    ensures { Decides result (Levelled l.now e) }
{
    if e.bits == 0 {
        return levels_empty(l, e.width);
    }
    levels_counted(l, e)
}

// Whether the bytes are the encoding of the set that following their edges gives.
fn agrees(l: &[u8], e: Encoding) -> bool
    requires { Fields l.now e }
    ensures { result ≡ same_numbers l.now (encode (entry_in l.now)) }
{
    let Some(n) = whole_ones(l, e) else {
        return false;
    };
    let Some(k) = last_ones(l, e) else {
        return false;
    };
    if !levels_agree(l, e) {
        return false;
    }
    // Each set bit above the last level makes a record, the others are the keys'.
    e.count + e.bits / 2 == roots_of(e.bits) + n + k
}

// ---- The calls
// An encoding opened: the full check, behind every call that takes one.
pub fn open(l: &[u8]) -> Result<Opened<'_>, Refusal>
    ensures checked { Checks l.now result }
    ensures told { told_outcome result ≡ open_call l.now }
{
    let e = parse(l)?;
    if agrees(l, e) {
        return Ok(Opened::of(l, e));
    }
    Err(Refusal::NotAnEncoding)
}

// The rank of an offset: the set bits strictly before it.
pub fn rank(l: &[u8], at: EdgeOffset) -> Result<usize, Refusal>
    ensures { ranked_outcome result ≡ rank_call l.now at.0 }
{
    open(l)?.rank(at)
}
