// The edge bytes of a subset: the edges that lead to no kept member are dropped, from the last to the first, then the empty records.
#![tactic(auto)]

ghost use Rattle.std.specs.Prelude.{ℕ, ◌+◌, ◌-◌, ◌*◌, ◌/◌, ◌%◌, ◌^◌, ◌<◌, ◌≤◌, ◌≡◌, true, cond, ◌++◌, map, length, get_or, ltb, IfSome};
ghost use Rattle.loes.specs.Limits.{max_edges};
ghost use Rattle.loes.specs.Keys.{those};
ghost use Rattle.loes.specs.Edges.{record_bits};
ghost use Rattle.loes.specs.Held.{entry_held};
ghost use Rattle.records.specs.Records.{empty_record, record_of_code, record_at, records_at, records_to, has_edge, children, Packed};
ghost use Rattle.records.specs.Numbers.{records_of, bits_of};
ghost use Rattle.records.specs.Tables.{spread, by_edge, kept_by};
ghost use Rattle.records.specs.Kinds.{number_of_kept};
ghost use Rattle.merge.specs.Union.{QueueRoom};
ghost use Rattle.restrict.specs.Flags.{member_flag};
ghost use Rattle.restrict.specs.Restriction.{Subtracts, masked_at, child_count, Entries, RecordMarked, kept_singles, SingleRoom, SinglesMarked, MarkRoom, Marked, BlockCompacted, Compacted};

mod entries;
mod members;

use bits::RecordIndex;
pub use entries::MarkedEntries;
pub use members::Members;
use records::{EdgeBytes, EdgedTable, Kept, Run, Tables};

// ---- A byte of edges

// How many edges a byte has.
pub fn count_edges(tables: Tables<'_>, x: u8) -> usize
    ensures { (result ≡ child_count (records_of 4 x)) × (result ≤ 8) }
{
    let h = tables.parts_at(x);
    h.first + h.second
}

// Two records in x, less the edges whose entries in v, taken in order, are not kept.
fn mark_half(tables: Tables<'_>, kept: Kept, x: usize, v: usize) -> usize
    requires { (x < 16) × (v < 256) }
    ensures { (bits_of 4 result ≡ map (kept_by (number_of_kept kept)) (spread (bits_of 4 x) (records_of 4 v))) × (result < 16) }
{
    tables.kept_in(tables.spread_at(x, v), kept)
}

// The four records of a byte of edges, less the edges whose entries, from d on, are not kept.
pub fn mark_byte(q: &[u8], tables: Tables<'_>, kept: Kept, x: u8, d: RecordIndex) -> u8
    requires { (d.0 / 4 + 3 < length q.now) × (d.0 ≤ 4 * max_edges) }
    ensures { records_of 4 result ≡ masked_at (λ m. kept_by (number_of_kept kept) (record_at q.now m)) d.0 (records_of 4 x) }
{
    let v = records::window(q, d);
    let n = count_edges(tables, x / 16);
    let a = mark_half(tables, kept, (x / 16) as usize, records::four_in(v, 0));
    let b = mark_half(tables, kept, (x % 16) as usize, records::four_in(v, n));
    (a * 16 + b) as u8
}

// The test of entry d: of a record, that it has an edge, of a member, that it is one of those asked for.
fn test_at(d: RecordIndex, r: RecordIndex, members: Members) -> Kept
    ensures { number_of_kept result ≡ cond (ltb d.0 r.0) by_edge (member_flag members) }
{
    if d.0 < r.0 {
        Kept::Edged
    } else {
        Kept::from(members)
    }
}

// Whether a byte of k edges can be marked whole: the first i records end with its four, the k entries before c stand behind them, all of them records, or members, and there are the bytes that are read.
pub fn has_mark(r: RecordIndex, i: RecordIndex, k: usize, c: RecordIndex, l: usize) -> bool
    ensures { result ≡ true → MarkRoom r.0 i.0 k c.0 l }
{
    i.0 % 4 == 0
        && k <= c.0
        && i.0 <= c.0 - k
        && (r.0 <= c.0 - k || c.0 <= r.0)
        && (c.0 - k) / 4 + 3 < l
}

// How many edges the byte of record i - 1 has, if it can be marked whole.
pub fn whole_edges(
    tables: Tables<'_>,
    q: &[u8],
    r: RecordIndex,
    i: RecordIndex,
    c: RecordIndex,
) -> Option<usize>
    requires { (0 < i.0) × ((i.0 - 1) / 4 < length q.now) }
    ensures { IfSome result (λ k. MarkRoom r.0 i.0 k c.0 (length q.now) × (k ≡ child_count (records_of 4 (get_or q.now ((i.0 - 1) / 4) 0)))) }
{
    let k = count_edges(tables, q[(i.0 - 1) / 4]);
    if has_mark(r, i, k, c, q.len()) {
        Some(k)
    } else {
        None
    }
}

// ---- Sixteen records of one edge each

// Sixteen records from record i on, as one number.
fn sixteen(l: &[u8], i: RecordIndex) -> usize
    requires { i.0 / 4 + 4 < length l.now }
    ensures { (records_of 16 result ≡ records_at l.now i.0 16) × (result < 2 ^ 32) }
{
    let at = i.0 / 4;
    let x = records::block(l, at) * bits::BYTE + l[at + 4] as usize;
    (x << (24 + 2 * (i.0 % 4))) >> 32
}

// The lower bit of each of sixteen records.
const LOWER: usize = 0x55555555;

// Whether none of sixteen records has two edges.
fn no_double(x: usize) -> bool
    ensures { result ≡ true → ((k : ℕ) → k < 16 → children (get_or (records_of 16 x) k empty_record) ≤ 1) }
{
    (x & (x >> 1)) & LOWER == 0
}

// The records that are marked by one operation.
pub const SINGLES: usize = 16;

// Whether the last sixteen of the first i records can be: none has two edges, and their entries, before c, are records behind them. Blocks begin at every sixteenth record, so that none is tried twice.
pub fn has_singles(q: &[u8], r: RecordIndex, i: RecordIndex, c: RecordIndex) -> bool
    requires { (i.0 ≤ r.0) × (r.0 ≤ 4 * length q.now) × (length q.now ≤ max_edges) }
    ensures { result ≡ true → SingleRoom q.now r.0 i.0 c.0 }
{
    i.0 % SINGLES == 0
        && SINGLES <= i.0
        && c.0 <= r.0
        && i.0 + SINGLES <= c.0
        && c.0 / 4 < q.len()
        && no_double(records::block(q, (i.0 - SINGLES) / 4))
}

// Records of one edge in y, less those whose entry in e has none.
fn keep_singles(y: usize, e: usize) -> usize
    requires { y < 2 ^ 32 }
    ensures { (records_of 16 result ≡ kept_singles (records_of 16 y) (records_of 16 e)) × (result < 2 ^ 32) }
{
    let h = (e | (e >> 1)) & LOWER;
    y & (h * 3)
}

// Records in y, of one edge each, less those whose entry, from record d of z on, has none: sixteen, from record i on.
pub fn mark_singles(y: usize, z: &mut [u8], i: RecordIndex, d: RecordIndex)
    requires { (i.0 % 4 ≡ 0) × (i.0 / 4 + 3 < length z.old) × (d.0 / 4 + 4 < length z.old) × (y < 2 ^ 32) }
    ensures { SinglesMarked (records_of 16 y) z.old i.0 d.0 z.new }
{
    let at = i.0 / 4;
    let e = sixteen(z, d);
    let k = keep_singles(y, e);
    // written one by one: `copy_from_slice` compiles to a test whether the two overlap, and marking takes a sixth longer
    let [first, second, third, fourth] = (k as u32).to_be_bytes();
    z[at] = first;
    z[at + 1] = second;
    z[at + 2] = third;
    z[at + 3] = fourth;
}

// ---- All records of a union. What is asked of q, r and n stands in no struct: q is written in place, and is no union from the first mark on.

// Record i, which is x, less the edges whose entries, from d on, are not kept.
fn mark_record(
    q: &mut [u8],
    i: RecordIndex,
    x: u8,
    r: RecordIndex,
    members: Members,
    d: RecordIndex,
)
    requires { (i.0 < r.0) × (r.0 ≤ 4 * length q.old) × (length q.old ≤ max_edges) × (x < 4) × (d.0 + x / 2 + x % 2 ≤ 4 * length q.old) }
    ensures { RecordMarked (member_flag members) q.old r.0 (record_of_code x) q.old i.0 d.0 q.new }
{
    let entries = MarkedEntries {
        marks: q,
        queue: q,
        records: r,
        flag: members.flag(),
    };
    let z = entries.kept_record(x, d);
    records::put_record(q, i, z);
}

// The first r records of q less the edges under which none of the members is, from the last to the first, in their place: by blocks and bytes where it can be.
fn mark_bytes(tables: Tables<'_>, q: &mut [u8], r: RecordIndex, n: usize, members: Members)
    requires { (r.0 + n ≤ 4 * length q.old) × (length q.old ≤ max_edges) × Entries q.old r.0 n }
    ensures { Marked (member_flag members) q.old r.0 n q.new }
{
    let mut i = r.0;
    let mut c = r.0 + n;
    // no `for`: a step is of sixteen records, four or one, by what is found; no struct of i and c: they fall by unlike steps
    while i > 0 {
        if has_singles(q, r, RecordIndex(i), RecordIndex(c)) {
            i -= SINGLES;
            c -= SINGLES;
            let y = records::block(q, i / 4);
            mark_singles(y, q, RecordIndex(i), RecordIndex(c));
        } else if let Some(k) = whole_edges(tables, q, r, RecordIndex(i), RecordIndex(c)) {
            let j = (i - 1) / 4;
            let d = RecordIndex(c - k);
            q[j] = mark_byte(q, tables, test_at(d, r, members), q[j], d);
            i -= 4;
            c -= k;
        } else {
            i -= 1;
            let x = records::record_at(q, RecordIndex(i));
            c -= (x / 2 + x % 2) as usize;
            mark_record(q, RecordIndex(i), x, r, members, RecordIndex(c));
        }
    }
}

// The byte of record i - 1. Where there is none it is never read, so that an Option would only be asked at each record.
fn byte_before(q: &[u8], i: RecordIndex) -> u8
    requires { 0 < i.0 → (i.0 - 1) / 4 < length q.now }
    ensures { 0 < i.0 → result ≡ get_or q.now ((i.0 - 1) / 4) 0 }
{
    if i.0 > 0 { q[(i.0 - 1) / 4] } else { 0 }
}

// The same record by record. Each byte is read before it is changed, so that no record waits for the one behind it.
fn mark_singly(q: &mut [u8], r: RecordIndex, n: usize, members: Members)
    requires { (r.0 + n ≤ 4 * length q.old) × (length q.old ≤ max_edges) × Entries q.old r.0 n }
    ensures { Marked (member_flag members) q.old r.0 n q.new }
{
    let mut c = r.0 + n;
    let mut y = byte_before(q, r);
    for j in (0..r.0).rev() {
        let x = records::record_in(y, j % 4);
        c -= (x / 2 + x % 2) as usize;
        mark_record(q, RecordIndex(j), x, r, members, RecordIndex(c));
        if j % 4 == 0 {
            y = byte_before(q, RecordIndex(j));
        }
    }
}

// The same, by bytes if tables are lent.
fn mark(tables: Option<Tables<'_>>, q: &mut [u8], r: RecordIndex, n: usize, members: Members)
    requires { (r.0 + n ≤ 4 * length q.old) × (length q.old ≤ max_edges) × Entries q.old r.0 n }
    ensures { Marked (member_flag members) q.old r.0 n q.new }
{
    match tables {
        Some(lent) => mark_bytes(lent, q, r, n, members),
        None => mark_singly(q, r, n, members),
    }
}

// ---- The records that are left

// The records of two bytes that have an edge.
fn bytes_run(edged: EdgedTable<'_>, x: u8, y: u8) -> Run
    ensures { (records_of (result.bits / 2) result.records ≡ those has_edge (records_of 4 x ++ records_of 4 y)) × (result.bits ≤ 16) }
{
    edged.edged_at(x).followed_by(edged.edged_at(y))
}

// The records of the four bytes from byte j of q on that have an edge, put behind the first k.
fn compact_block(
    q: &[u8],
    edged: EdgedTable<'_>,
    j: usize,
    out: &mut [u8],
    k: RecordIndex,
) -> RecordIndex
    requires { (j + 3 < length q.now) × (k.0 / 4 + 7 < length out.old) × (k.0 ≤ 4 * max_edges) }
    ensures { BlockCompacted q.now j out.old k.0 out.new result.0 }
{
    let h = bytes_run(edged, q[j], q[j + 1]);
    let g = bytes_run(edged, q[j + 2], q[j + 3]);
    let run = h.followed_by(g);
    records::append(out, k, run);
    RecordIndex(k.0 + run.count())
}

// How many records were looked at, and how many of them have an edge.
#[derive(Clone, Copy)]
struct Moved {
    from: RecordIndex,
    to: RecordIndex,
}

// The records that are moved at a time.
const MOVED: usize = 16;

// The first records of q, of r, that have an edge, moved together by blocks while there is room behind them.
fn compact_blocks(q: &[u8], edged: EdgedTable<'_>, r: RecordIndex, out: &mut [u8]) -> Moved
    requires { (r.0 ≤ 4 * length q.now) × (r.0 ≤ 4 * max_edges) }
    ensures { Compacted q.now result.from.0 out.old out.new result.to.0 × (result.from.0 ≤ r.0) }
{
    let mut i = 0;
    let mut k = RecordIndex(0);
    // no `for`: it ends too where there is no more room
    while MOVED <= r.0 - i && k.0 / 4 + 7 < out.len() {
        k = compact_block(q, edged, i / 4, out, k);
        i += MOVED;
    }
    Moved {
        from: RecordIndex(i),
        to: k,
    }
}

// The first r records of q that have an edge, moved together: by blocks if a table is lent.
fn compact(q: &[u8], edged: Option<EdgedTable<'_>>, r: RecordIndex, out: &mut [u8]) -> RecordIndex
    requires { (r.0 ≤ 4 * length q.now) × (r.0 ≤ 4 * max_edges) × (length (those has_edge (records_to q.now r.0)) < 4 * length out.old) }
    ensures { Compacted q.now r.0 out.old out.new result.0 }
{
    let moved = match edged {
        Some(lent) => compact_blocks(q, lent, r, out),
        None => Moved {
            from: RecordIndex(0),
            to: RecordIndex(0),
        },
    };
    let mut k = moved.to;
    for i in moved.from.0..r.0 {
        let x = records::record_at(q, RecordIndex(i));
        k = records::push(out, k, x);
    }
    k
}

// The same, and what is left of their last byte cleared: how many bits they are.
pub fn collect(q: &[u8], edged: Option<EdgedTable<'_>>, r: RecordIndex, out: &mut [u8]) -> usize
    requires { (r.0 ≤ 4 * length q.now) × (r.0 ≤ 4 * max_edges) × (length (those has_edge (records_to q.now r.0)) < 4 * length out.old) }
    ensures { Packed (record_bits (those has_edge (records_to q.now r.0))) out.old out.new result × (result ≤ 2 * r.0) }
{
    let k = compact(q, edged, r, out);
    records::seal(out, k);
    2 * k.0
}

// ---- Difference

// The edge bits of a difference; where in the queue the members of the union are flagged, and how many.
#[derive(Clone, Copy)]
pub struct Remainder {
    pub edges: usize,
    pub flags: RecordIndex,
    pub flagged: usize,
}

// The edges of the difference of two sets of one width: the merge, restricted. The members' flags stay in the queue.
pub fn subtract(
    a: EdgeBytes<'_>,
    b: EdgeBytes<'_>,
    tables: Option<Tables<'_>>,
    edged: Option<EdgedTable<'_>>,
    q: &mut [u8],
    out: &mut [u8],
) -> Remainder
    requires one_width { a.width ≡ b.width }
    requires queue_room { QueueRoom a.bits b.bits q.old × (a.bits < 8 * length out.old) }
    ensures { Subtracts (entry_held a.entry.width a.entry.bits a.entry.bytes.now) (entry_held b.entry.width b.entry.bits b.entry.bytes.now) q.old out.old q.new out.new result.edges result.flags.0 result.flagged }
{
    let u = merge::merge(a, b, tables, q);
    let r = RecordIndex(u.edges / 2);
    let n = u.members;
    mark(tables, q, r, n, Members::FirstOnly);
    let edges = collect(q, edged, r, out);
    Remainder {
        edges,
        flags: r,
        flagged: n,
    }
}
