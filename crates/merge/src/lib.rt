// The edge bytes of a union: two edge sequences merged level by level, eight records at a time, in the place of the queue of flags.
#![tactic(auto)]

ghost use Rattle.std.specs.Prelude.{◌+◌, ◌-◌, ◌*◌, ◌/◌, ◌%◌, ◌<◌, ◌≤◌, ◌≡◌, true, map, length, ltb};
ghost use Rattle.loes.specs.Limits.{max_edges};
ghost use Rattle.loes.specs.Bytes.{odd, bit};
ghost use Rattle.loes.specs.Held.{entry_held};
ghost use Rattle.records.specs.Records.{record_of_code, flag_at, flags_from, record_of_flag};
ghost use Rattle.records.specs.Numbers.{records_of, eight_of, overread, overwrite};
ghost use Rattle.merge.specs.Union.{Merged, QueueRoom, either_record, child_flags, children_of, flags_in, EightMerged, taken_record, Queued, RecordMerged, BlockMerged, LevelMerged, LevelRoom};

use bits::RecordIndex;
use records::{EdgeBytes, Run, Tables};

// ---- One record

// Record i of bytes if f is odd, else a record with no edge.
fn record_if(f: u8, l: &[u8], i: RecordIndex) -> u8
    requires { odd f ≡ true → i.0 / 4 < length l.now }
    ensures { (record_of_code result ≡ taken_record (odd f) l.now i.0) × (result < 4) }
{
    if f % 2 == 1 {
        records::record_at(l, i)
    } else {
        0
    }
}

// The edges of either record.
fn either_record(x: u8, y: u8) -> u8
    requires { (x < 4) × (y < 4) }
    ensures { (record_of_code result ≡ either_record (record_of_code x) (record_of_code y)) × (result < 4) }
{
    x | y
}

// The flags of the edges of two records are put behind the first n of the queue.
fn push_children(q: &mut [u8], n: RecordIndex, x: u8, y: u8) -> RecordIndex
    requires { (n.0 + 2 ≤ 4 * length q.old) × (x < 4) × (y < 4) × (n.0 < 4 * max_edges) }
    ensures { Queued n.0 (child_flags (record_of_code x) (record_of_code y)) q.old q.new result.0 }
{
    let t = records::push(q, n, x / 2 + y / 2 * 2);
    records::push(q, t, x % 2 + y % 2 * 2)
}

// Records taken of the first and of the second, and the queue's end.
#[derive(Clone, Copy)]
pub struct Positions {
    pub a: RecordIndex,
    pub b: RecordIndex,
    pub tail: RecordIndex,
}

// Record i of the union, in the place of its flag: the records taken as the flag says, their edges, and a flag for each.
fn merge_record(a: &[u8], b: &[u8], q: &mut [u8], i: RecordIndex, at: Positions) -> Positions
    requires i_lt_tail { (i.0 < at.tail.0) × (at.tail.0 + 2 ≤ 4 * length q.old) × (length q.old ≤ max_edges) }
    requires a_bound { (flag_at q.old i.0).in_first ≡ true → at.a.0 < 4 * length a.now }
    requires b_bound { (flag_at q.old i.0).in_second ≡ true → at.b.0 < 4 * length b.now }
    requires b_bound_2 { at.a.0 + at.b.0 ≤ max_edges }
    ensures { RecordMerged a.now b.now q.old i.0 at.a.0 at.b.0 at.tail.0 q.new result.a.0 result.b.0 result.tail.0 }
{
    let f = records::record_at(q, i);
    let x = record_if(f, a, at.a);
    let y = record_if(f / 2, b, at.b);
    let z = either_record(x, y);
    records::put_record(q, i, z);
    let tail = push_children(q, at.tail, x, y);
    Positions {
        a: RecordIndex(at.a.0 + (f % 2) as usize),
        b: RecordIndex(at.b.0 + (f / 2 % 2) as usize),
        tail,
    }
}

// The flags that four records of each push.
fn push_four(tables: Tables<'_>, x: usize, y: usize) -> Run
    requires { (x < 256) × (y < 256) }
    ensures { (records_of (result.bits / 2) result.records ≡ map record_of_flag (children_of (records_of 4 x) (records_of 4 y))) × (result.bits ≤ 16) }
{
    let high = tables.run_at(x / 16, y / 16);
    let low = tables.run_at(x % 16, y % 16);
    high.followed_by(low)
}

// Eight records of the union, in two numbers, the flags that they push, and how many records were taken of each.
#[derive(Clone, Copy)]
pub struct Eight {
    pub high: usize,
    pub low: usize,
    pub flags: Run,
    pub first: usize,
    pub second: usize,
}

// The eight flags of bytes c and d merged: x and y are the next eight records of each.
fn merge_eight(tables: Tables<'_>, c: u8, d: u8, x: usize, y: usize) -> Eight
    ensures { EightMerged (flags_in c d) (eight_of x) (eight_of y) result.high result.low result.flags.records result.flags.bits result.first result.second }
{
    let f = tables.parts_at(c);
    let g = tables.parts_at(d);
    let x1 = tables.spread_at(f.firsts, records::four_in(x, 0));
    let y1 = tables.spread_at(f.seconds, records::four_in(y, 0));
    let x2 = tables.spread_at(g.firsts, records::four_in(x, f.first));
    let y2 = tables.spread_at(g.seconds, records::four_in(y, f.second));
    let h = push_four(tables, x1, y1);
    let k = push_four(tables, x2, y2);
    Eight {
        high: x1 | y1,
        low: x2 | y2,
        flags: h.followed_by(k),
        first: f.first + g.first,
        second: f.second + g.second,
    }
}

// The eight records of the union from byte j on, in the place of their flags.
fn merge_block(
    a: &[u8],
    b: &[u8],
    tables: Tables<'_>,
    q: &mut [u8],
    j: usize,
    at: Positions,
) -> Positions
    requires j_bound { (4 * j + 8 ≤ at.tail.0) × (at.tail.0 + overwrite ≤ 4 * length q.old) × (length q.old ≤ max_edges) }
    requires overread_bound { (at.a.0 + overread ≤ 4 * length a.now) × (at.b.0 + overread ≤ 4 * length b.now) × (at.a.0 + at.b.0 ≤ max_edges) }
    ensures { BlockMerged a.now b.now q.old j at.a.0 at.b.0 at.tail.0 q.new result.a.0 result.b.0 result.tail.0 }
{
    let x = records::window(a, at.a);
    let y = records::window(b, at.b);
    let e = merge_eight(tables, q[j], q[j + 1], x, y);
    q[j] = e.high as u8;
    q[j + 1] = e.low as u8;
    records::append(q, at.tail, e.flags);
    Positions {
        a: RecordIndex(at.a.0 + e.first),
        b: RecordIndex(at.b.0 + e.second),
        tail: RecordIndex(at.tail.0 + e.flags.count()),
    }
}

// The records of a block.
const BLOCK: usize = 8;

// Whether a block can be merged: the records from i up to `to` begin with those of two bytes.
fn has_block(i: RecordIndex, to: RecordIndex) -> bool
    requires { i.0 ≤ 4 * max_edges }
    ensures { result ≡ true → (i.0 % 4 ≡ 0) × (i.0 + 8 ≤ to.0) }
{
    i.0 % 4 == 0 && i.0 + BLOCK <= to.0
}

// A level of the union, record by record: its flags are in the queue from `from` on to the end.
fn merge_records(a: &[u8], b: &[u8], q: &mut [u8], from: RecordIndex, start: Positions) -> Positions
    requires { LevelRoom a.now b.now q.old from.0 start.a.0 start.b.0 start.tail.0 (flags_from q.old from.0 (start.tail.0 - from.0)) }
    ensures { LevelMerged a.now b.now q.old from.0 start.a.0 start.b.0 start.tail.0 (start.tail.0 - from.0) q.new result.a.0 result.b.0 result.tail.0 }
{
    let mut at = start;
    for i in from.0..start.tail.0 {
        at = merge_record(a, b, q, RecordIndex(i), at);
    }
    at
}

// The same, by blocks where it can be.
fn merge_blocks(
    a: &[u8],
    b: &[u8],
    tables: Tables<'_>,
    q: &mut [u8],
    from: RecordIndex,
    start: Positions,
) -> Positions
    requires { LevelRoom a.now b.now q.old from.0 start.a.0 start.b.0 start.tail.0 (flags_from q.old from.0 (start.tail.0 - from.0)) }
    ensures { LevelMerged a.now b.now q.old from.0 start.a.0 start.b.0 start.tail.0 (start.tail.0 - from.0) q.new result.a.0 result.b.0 result.tail.0 }
{
    let end = start.tail;
    let mut at = start;
    let mut i = from.0;
    // no `for`: a step is of eight records or of one, by what is found
    while i < end.0 {
        if has_block(RecordIndex(i), end) {
            at = merge_block(a, b, tables, q, i / 4, at);
            i += BLOCK;
        } else {
            at = merge_record(a, b, q, RecordIndex(i), at);
            i += 1;
        }
    }
    at
}

// The same, by blocks if tables are lent.
fn merge_level(
    a: &[u8],
    b: &[u8],
    tables: Option<Tables<'_>>,
    q: &mut [u8],
    from: RecordIndex,
    start: Positions,
) -> Positions
    requires { LevelRoom a.now b.now q.old from.0 start.a.0 start.b.0 start.tail.0 (flags_from q.old from.0 (start.tail.0 - from.0)) }
    ensures { LevelMerged a.now b.now q.old from.0 start.a.0 start.b.0 start.tail.0 (start.tail.0 - from.0) q.new result.a.0 result.b.0 result.tail.0 }
{
    match tables {
        Some(t) => merge_blocks(a, b, t, q, from, start),
        None => merge_records(a, b, q, from, start),
    }
}

// The edge bits of a union, and its members, whose flags stand behind its records.
#[derive(Clone, Copy)]
pub struct Sizes {
    pub edges: usize,
    pub members: usize,
}

// The edges of the union of two sets of one width, and which of the two has each member, in the queue.
pub fn merge(a: EdgeBytes<'_>, b: EdgeBytes<'_>, tables: Option<Tables<'_>>, q: &mut [u8]) -> Sizes
    requires one_width { a.width ≡ b.width }
    requires queue_room { QueueRoom a.bits b.bits q.old }
    ensures { Merged (entry_held a.entry.width a.entry.bits a.entry.bytes.now) (entry_held b.entry.width b.entry.bits b.entry.bytes.now) q.old q.new result.edges result.members }
{
    let c = u8::from(a.bits > 0) + u8::from(b.bits > 0) * 2;
    let t = records::push(q, RecordIndex(0), c);
    let mut at = Positions {
        a: RecordIndex(0),
        b: RecordIndex(0),
        tail: t,
    };
    let mut from = RecordIndex(0);
    for _ in 0..a.width {
        let end = at.tail;
        at = merge_level(a.bytes, b.bytes, tables, q, from, at);
        from = end;
    }
    Sizes {
        edges: 2 * from.0,
        members: at.tail.0 - from.0,
    }
}
