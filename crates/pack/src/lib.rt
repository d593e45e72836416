// The call pack: a sorted batch of keys, its edges marked where they stand in the encoding.
#![tactic(auto)]

ghost use Rattle.std.specs.Prelude.{◌≡◌, ℕ, ◌+◌, ◌-◌, ◌*◌, ◌/◌, ◌%◌, ◌^◌, ◌<◌, ◌≤◌, length, drop, get_or, replicate};
ghost use mathlib.Core.Option.{none};
ghost use Rattle.loes.specs.Limits.{max_width, max_edges};
ghost use Rattle.loes.specs.Edges.{edges as edgeSequence};
ghost use Rattle.loes.specs.Bytes.{pack_bits, bit, bit_at};
ghost use Rattle.loes.specs.Keys.{less};
ghost use Rattle.loes.specs.Entry.{key_bytes, count, edges_of, edge_count};
ghost use Rattle.loes.specs.Refusals.{first_of};
ghost use Rattle.loes.specs.Model.{key_in, batch_entry};
ghost use Rattle.loes.specs.Calls.{pack_call};
ghost use Rattle.build.specs.Writing.{written_outcome};
ghost use Rattle.pack.specs.Packing.{edge_tests, Blank, Ready, Planned, Unfilled};
ghost use Rattle.pack.specs.Rising.{common_prefix, first_new, set_below};
ghost use Rattle.pack.specs.Marking.{Bumped, running, Starts, max_records, Gap, set_bit, set_bits, second_edges, offset_of, AboveFits, KeyFits};
ghost use Rattle.pack.specs.Batch.{SameBytes, FirstDifference, members, RecordsCounted, Markable, Unmarked, Apart, edges_from, Row, row_offset};

mod batch;

use batch::Batch;
use bits::{EdgeOffset, RecordIndex};
use encoding::Encoding;
use loes::Refusal;

// Records that the most edges make.
const MAX_RECORDS: usize = Encoding::MAX_EDGES / 2;

// ---- How far neighbours agree
// How many of eight bytes agree, from the first on.
fn same_in_word(x: &[u8], y: &[u8], at: usize) -> usize
    requires { (at + 8 ≤ length x.now) × (at + 8 ≤ length y.now) }
    ensures { SameBytes (drop at x.now) (drop at y.now) 8 result }
{
    let p = bits::word(x, at);
    let q = bits::word(y, at);
    u64::trailing_zeros(p ^ q) as usize / 8
}

// How many bytes agree, from the first on, where those before `from` do.
fn same_from(x: &[u8], y: &[u8], from: usize) -> usize
    requires { (length x.now ≡ length y.now) × (from ≤ length x.now) × ((i : ℕ) → i < from → get_or x.now i 0 ≡ get_or y.now i 0) }
    ensures { SameBytes x.now y.now (length x.now) result }
{
    for j in from..x.len() {
        if x[j] != y[j] {
            return j;
        }
    }
    x.len()
}

// The same from the first on, eight bytes at a time first.
fn same_words(x: &[u8], y: &[u8]) -> usize
    requires { length x.now ≡ length y.now }
    ensures { SameBytes x.now y.now (length x.now) result }
{
    let words = x.len() / 8;
    for j in 0..words {
        let k = same_in_word(x, y, 8 * j);
        if k < 8 {
            return 8 * j + k;
        }
    }
    same_from(x, y, 8 * words)
}

// How many bytes agree, from the first on. Short keys have a function with no words in it, which is quicker for them.
fn same_bytes(x: &[u8], y: &[u8]) -> usize
    requires { length x.now ≡ length y.now }
    ensures { SameBytes x.now y.now (length x.now) result }
{
    if 8 <= x.len() {
        return same_words(x, y);
    }
    same_from(x, y, 0)
}

// The first bit in which two bytes differ, the most significant being bit 0.
fn first_difference(p: u8, q: u8) -> usize
    requires { p ≡ q → ⊥ }
    ensures { FirstDifference p q result }
{
    u8::leading_zeros(p ^ q) as usize
}

// How many bits two keys agree in, from the first on: whole bytes, then bits of the byte that differs.
fn common_prefix(x: &[u8], y: &[u8], m: usize) -> usize
    requires { (m ≤ max_width) × (length x.now ≡ key_bytes m) × (length y.now ≡ key_bytes m) }
    ensures { result ≡ common_prefix (key_in m x.now) (key_in m y.now) }
{
    let j = same_bytes(x, y);
    if j == x.len() {
        return m;
    }
    m.min(8 * j + first_difference(x[j], y[j]))
}

// ---- First pass: the keys are checked, and the records of each level counted
// One record more on each level from a level on, noted at that level alone; none where the key is that before it.
fn note(counts: &mut [usize], from: usize, m: usize)
    requires { (m ≤ length counts.old) × ((e : ℕ) → e < m → get_or counts.old e 0 + 1 < 2 ^ 64) }
    ensures { Bumped from m (running counts.old m) (running counts.new m) }
{
    if from < m {
        counts[from] += 1;
    }
}

// Checks the keys one by one, and notes where each has its first new record.
fn count_records(batch: Batch, counts: &mut [usize]) -> Result<(), Refusal>
    requires { (batch.width ≤ length counts.old) × ((e : ℕ) → e < batch.width → get_or counts.old e 0 ≡ 0) }
    ensures { RecordsCounted batch.entry (running counts.new batch.entry.width) result }
{
    for i in 0..batch.count {
        let new = batch.check_key(i)?;
        note(counts, new, batch.width);
    }
    Ok(())
}

// Puts the records before each level in place of what is noted at it; how many there are in all, or 5 where there are too many.
fn level_starts(levels: &mut [usize]) -> Result<usize, Refusal>
    requires { (d : ℕ) → d < length levels.old → get_or (running levels.old (length levels.old)) d 0 < 2 ^ 63 }
    ensures { Starts (length levels.old) (running levels.old (length levels.old)) levels.new result }
{
    let mut size = 0;
    let mut records = 0;
    for place in levels.iter_mut() {
        size += *place;
        *place = records;
        records += size;
        if records > MAX_RECORDS {
            return Err(Refusal::TooLarge);
        }
    }
    Ok(records)
}

// ---- Second pass: the edges are marked
// The byte with each of its bits set, the most significant first: a look at it is quicker than a shift.
static MASKS: [u8; 8] = [128, 64, 32, 16, 8, 4, 2, 1];

// Sets bit o.
fn set_bit(b: &mut [u8], o: EdgeOffset)
    requires { o.0 / 8 < length b.old }
    ensures { b.new ≡ set_bit b.old o.0 }
{
    let at = o.0 / 8;
    let x = b[at];
    b[at] = x | MASKS[o.0 % 8];
}

// The last record of the level above the first new one gets its second edge; there is no such level for the first key.
fn mark_above(new: usize, cursors: &[usize], edges: &mut [u8])
    requires { AboveFits new cursors.now edges.old × (length edges.old ≤ max_edges / 8) }
    ensures { edges.new ≡ set_bits (second_edges cursors.now) (new - 1) (new - (new - 1)) edges.old }
{
    if new == 0 {
        return;
    }
    let record = cursors[new - 1];
    set_bit(edges, EdgeOffset(2 * record - 1));
}

// Moves the cursors of the levels on which a key has a new record, and sets its edges there and on the level above.
fn mark_key(key: &[u8], new: usize, m: usize, cursors: &mut [usize], edges: &mut [u8])
    requires { KeyFits m new key.now cursors.old edges.old }
    ensures moved { Bumped new m cursors.old cursors.new }
    ensures set { edges.new ≡ set_bits (offset_of cursors.old new key.now) (new - 1) (m - (new - 1)) edges.old }
{
    if m < new {
        return;
    }
    mark_above(new, cursors, edges);
    for e in new..m {
        let record = cursors[e];
        cursors[e] = record + 1;
        let o = 2 * record + bits::bit_at(key, e) as usize;
        set_bit(edges, EdgeOffset(o));
    }
}

// Sets the edges of all keys on the levels before one, with a cursor for each; those of the levels from it on are set.
fn mark_keys(batch: Batch, top: usize, cursors: &mut [usize], edges: &mut [u8])
    requires markable { Markable batch cursors.old × Apart batch.width batch.count top (members batch) }
    requires edges_value { edges.old ≡ pack_bits (edges_from top batch.width (members batch)) }
    ensures { edges.new ≡ pack_bits (edgeSequence batch.entry.width (members batch.entry)) }
{
    for i in 0..batch.count {
        mark_key(batch.key(i), batch.first_new(i), top, cursors, edges);
    }
}

// ---- Levels on which each key has a record of its own: key after key, four to a byte
// A level from which on each of n keys has a record of its own, told by the records before the levels; m where none is found.
fn apart_from(starts: &[usize], n: usize, m: usize) -> usize
    requires { (m ≤ length starts.now) × ((e : ℕ) → e < m → get_or starts.now e 0 ≤ max_records) × (n < 2 ^ 63) }
    ensures { Gap m n starts.now result }
{
    for e in 1..m {
        if starts[e - 1] + n == starts[e] {
            return e - 1;
        }
    }
    m
}

// Sets the edge of key i on level e, whose first record is given.
fn mark_one(batch: Batch, e: usize, first: RecordIndex, i: usize, edges: &mut [u8])
    requires { Row batch (i + 1) e first.0 edges.old }
    ensures { edges.new ≡ set_bits (row_offset batch.entry e first.0) i 1 edges.old }
{
    let record = first.0 + i;
    set_bit(edges, EdgeOffset(2 * record + batch.bit(i, e)));
}

// The same of four keys, whose records are a byte.
fn mark_four(batch: Batch, e: usize, first: RecordIndex, i: usize, edges: &mut [u8])
    requires { Row batch (i + 4) e first.0 edges.old × ((first.0 + i) % 4 ≡ 0) }
    ensures { edges.new ≡ set_bits (row_offset batch.entry e first.0) i 4 edges.old }
{
    let record = first.0 + i;
    let at = record / 4;
    let p = batch.bit(i, e);
    let q = batch.bit(i + 1, e);
    let r = batch.bit(i + 2, e);
    let s = batch.bit(i + 3, e);
    let x = edges[at];
    edges[at] = x | MASKS[p] | MASKS[2 + q] | MASKS[4 + r] | MASKS[6 + s];
}

// The same of all keys: those up to the first record that begins a byte, those whose records are whole bytes, and those behind them.
fn mark_level(batch: Batch, e: usize, first: RecordIndex, edges: &mut [u8])
    requires { Row batch batch.count e first.0 edges.old }
    ensures { edges.new ≡ set_bits (row_offset batch.entry e first.0) 0 batch.entry.count edges.old }
{
    let before = batch.count.min((4 - first.0 % 4) % 4);
    let fours = (batch.count - before) / 4;
    for i in 0..before {
        mark_one(batch, e, first, i, edges);
    }
    for j in 0..fours {
        mark_four(batch, e, first, before + 4 * j, edges);
    }
    for i in before + 4 * fours..batch.count {
        mark_one(batch, e, first, i, edges);
    }
}

// The same on all levels from one on, the last first.
fn mark_levels(batch: Batch, top: usize, starts: &[usize], edges: &mut [u8])
    requires { Unmarked batch starts.now edges.old × Apart batch.width batch.count top (members batch) }
    ensures { edges.new ≡ pack_bits (edges_from top batch.entry.width (members batch.entry)) }
{
    for e in (top..batch.width).rev() {
        mark_level(batch, e, RecordIndex(starts[e]), edges);
    }
}

// Fewer keys than this are sooner marked one by one.
const FEW_KEYS: usize = 16;

// Sets the edges of all keys: those of the levels on which they are apart, then the others.
fn mark_all(batch: Batch, cursors: &mut [usize], edges: &mut [u8])
    requires { Unmarked batch cursors.old edges.old }
    ensures { edges.new ≡ pack_bits (edgeSequence batch.entry.width (members batch.entry)) }
{
    if batch.count < FEW_KEYS {
        mark_keys(batch, batch.width, cursors, edges);
        return;
    }
    let top = apart_from(cursors, batch.count, batch.width);
    mark_levels(batch, top, cursors, edges);
    mark_keys(batch, top, cursors, edges);
}

// ---- Both passes
// No record yet on any level.
pub fn no_records() -> [usize; Encoding::MAX_WIDTH]
    ensures { Blank result }
{
    [0; Encoding::MAX_WIDTH]
}

// Refuses a batch, or tells how many edge bits its entry has, and the records before each level.
pub fn plan(m: usize, batch: &[u8], levels: &mut [usize]) -> Result<usize, Refusal>
    requires { Blank levels.old }
    ensures { Planned m batch.now levels.new result }
{
    if m == 0 || m > Encoding::MAX_WIDTH {
        return Err(Refusal::BadWidth);
    }
    if batch.len() % bits::bytes_for(m) != 0 {
        return Err(Refusal::RaggedBatch);
    }
    let levels = &mut levels[..m];
    count_records(Batch::of(m, batch), levels)?;
    let records = level_starts(levels)?;
    Ok(2 * records)
}

// How many members the entry of a planned batch has: its keys, equal neighbours counting once.
pub fn count_members(m: usize, batch: &[u8]) -> usize
    requires { first_of (edge_tests m batch.now) ≡ none }
    ensures { result ≡ count (batch_entry m batch.now) }
{
    let keys = Batch::of(m, batch);
    let mut members = 0;
    for i in 0..keys.count {
        members += (keys.first_new(i) <= m) as usize;
    }
    members
}

// The edge bytes of a planned batch, whatever was in the buffer.
fn fill(batch: &[u8], m: usize, levels: &mut [usize], edges: &mut [u8])
    requires { Unfilled m batch.now levels.old edges.old }
    ensures { edges.new ≡ pack_bits (edges_of (batch_entry m batch.now)) }
{
    edges.fill(0);
    mark_all(Batch::of(m, batch), levels, edges);
}

// ---- The call
// The encoding of a planned batch, if it fits: its edges in their place, then the fields around them.
pub fn write_planned(
    m: usize,
    b: usize,
    batch: &[u8],
    levels: &mut [usize],
    out: &mut [u8],
) -> Result<usize, Refusal>
    requires { Ready m batch.now levels.old × (b ≡ edge_count (batch_entry m batch.now)) × (length levels.old ≡ max_width) }
    ensures { written_outcome result out.new ≡ pack_call m batch.now out.old }
{
    if build::too_short(m, b, out.len()) {
        return Err(Refusal::ShortBuffer);
    }
    let at = build::edges_start(m);
    fill(batch, m, levels, &mut out[at..at + bits::bytes_for(b)]);
    build::write_around_edges(m, b, out);
    Ok(build::length_of(m, b))
}

// Packs a batch of keys of m bits, laid end to end in rising order, to the front of a buffer. Nothing is written before the last test.
pub fn pack(m: usize, batch: &[u8], out: &mut [u8]) -> Result<usize, Refusal>
    ensures { written_outcome result out.new ≡ pack_call m batch.now out.old }
{
    let mut levels = no_records();
    let b = plan(m, batch, &mut levels)?;
    write_planned(m, b, batch, &mut levels, out)
}
