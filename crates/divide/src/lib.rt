// The edges of two sets divided in three: one merge, and the marks of the three parts made in one pass over it.
#![tactic(auto)]

ghost use Rattle.std.specs.Prelude.{◌+◌, ◌-◌, ◌*◌, ◌/◌, ◌%◌, ◌<◌, ◌≤◌, ◌≡◌, length, get_or};
ghost use Rattle.loes.specs.Limits.{max_edges};
ghost use Rattle.loes.specs.Held.{entry_held};
ghost use Rattle.records.specs.Records.{record_of_code, record_at, records_at, children};
ghost use Rattle.records.specs.Numbers.{records_of};
ghost use Rattle.restrict.specs.Flags.{member_flag};
ghost use Rattle.restrict.specs.Restriction.{child_count, Entries, RecordMarked, SinglesMarked, Marks};
ghost use Rattle.divide.specs.Division.{ByteMarked, MarksFit, Divided, DivideRoom};

use bits::RecordIndex;
use records::{EdgeBytes, EdgedTable, Kept, Tables};
use restrict::{MarkedEntries, Members};

// A number for each of three parts: edge bits, the bytes of a buffer, or those that were written.
#[derive(Clone, Copy)]
pub struct Three {
    pub both: usize,
    pub only_first: usize,
    pub only_second: usize,
}

// ---- Marks. The union's r records and the flags of its n members stay in q. In x, y and z stand the records less the edges under which no member is in both sets, in the first only, in the second only. They are no struct: each is written by itself, and takes the edges of the next once it is free.

// Sixteen records from record i on, of one edge each, marked by their entries, the records from record d on.
fn mark_singles_for_three(
    q: &[u8],
    x: &mut [u8],
    y: &mut [u8],
    z: &mut [u8],
    i: RecordIndex,
    d: RecordIndex,
)
    requires i_value { (i.0 % 4 ≡ 0) × (i.0 / 4 + 3 < length q.now) × (i.0 ≤ d.0) }
    requires marks_fit { MarksFit (d.0 + 16) x.old × MarksFit (d.0 + 16) y.old × MarksFit (d.0 + 16) z.old }
    ensures singles_marked { SinglesMarked (records_at q.now i.0 16) x.old i.0 d.0 x.new }
    ensures singles_marked_2 { SinglesMarked (records_at q.now i.0 16) y.old i.0 d.0 y.new }
    ensures singles_marked_3 { SinglesMarked (records_at q.now i.0 16) z.old i.0 d.0 z.new }
{
    let e = records::block(q, i.0 / 4);
    restrict::mark_singles(e, x, i, d);
    restrict::mark_singles(e, y, i, d);
    restrict::mark_singles(e, z, i, d);
}

// The four records of byte j, whose entries are those from d on: all records, or all members. Which of the two is asked once, and what the three look up together stands before the first store, so that it is looked up once.
fn mark_byte_for_three(
    tables: Tables<'_>,
    q: &[u8],
    x: &mut [u8],
    y: &mut [u8],
    z: &mut [u8],
    r: RecordIndex,
    j: usize,
    d: RecordIndex,
)
    requires j_in_bounds { (j < length q.now) × (d.0 / 4 + 3 < length q.now) × (d.0 ≤ 4 * max_edges) × (4 * j ≤ r.0) }
    requires marks_fit { MarksFit r.0 x.old × MarksFit r.0 y.old × MarksFit r.0 z.old }
    requires j_bound { d.0 < r.0 → d.0 + child_count (records_of 4 (get_or q.now j 0)) ≤ r.0 }
    ensures byte_marked { ByteMarked 3 q.now r.0 (records_at q.now (4 * j) 4) x.old j d.0 x.new }
    ensures byte_marked_2 { ByteMarked 1 q.now r.0 (records_at q.now (4 * j) 4) y.old j d.0 y.new }
    ensures byte_marked_3 { ByteMarked 2 q.now r.0 (records_at q.now (4 * j) 4) z.old j d.0 z.new }
{
    let e = q[j];
    if d.0 < r.0 {
        let a = restrict::mark_byte(x, tables, Kept::Edged, e, d);
        let b = restrict::mark_byte(y, tables, Kept::Edged, e, d);
        let c = restrict::mark_byte(z, tables, Kept::Edged, e, d);
        x[j] = a;
        y[j] = b;
        z[j] = c;
    } else {
        let a = restrict::mark_byte(q, tables, Kept::Both, e, d);
        let b = restrict::mark_byte(q, tables, Kept::FirstOnly, e, d);
        let c = restrict::mark_byte(q, tables, Kept::SecondOnly, e, d);
        x[j] = a;
        y[j] = b;
        z[j] = c;
    }
}

// Record j, which is e, for one part: its entries are those from d on.
fn mark_record(
    q: &[u8],
    marks: &mut [u8],
    r: RecordIndex,
    members: Members,
    j: RecordIndex,
    e: u8,
    d: RecordIndex,
)
    requires { (j.0 < r.0) × (e < 4) × (d.0 + e / 2 + e % 2 ≤ 4 * length q.now) × (length q.now ≤ max_edges) × MarksFit r.0 marks.old }
    ensures { RecordMarked (member_flag members) q.now r.0 (record_of_code e) marks.old j.0 d.0 marks.new }
{
    let entries = MarkedEntries {
        marks,
        queue: q,
        records: r,
        flag: members.flag(),
    };
    let kept = entries.kept_record(e, d);
    records::put_record(marks, j, kept);
}

// Record j, whose entries are those before c: where they begin.
fn mark_record_for_three(
    q: &[u8],
    x: &mut [u8],
    y: &mut [u8],
    z: &mut [u8],
    r: RecordIndex,
    j: RecordIndex,
    c: RecordIndex,
) -> RecordIndex
    requires j_lt_r { (j.0 < r.0) × (c.0 ≤ 4 * length q.now) × (r.0 ≤ 4 * length q.now) × (length q.now ≤ max_edges) × (children (record_at q.now j.0) ≤ c.0) }
    requires marks_fit { MarksFit r.0 x.old × MarksFit r.0 y.old × MarksFit r.0 z.old }
    ensures result_value { result.0 ≡ c.0 - children (record_at q.now j.0) }
    ensures record_marked { RecordMarked 3 q.now r.0 (record_at q.now j.0) x.old j.0 result.0 x.new }
    ensures record_marked_2 { RecordMarked 1 q.now r.0 (record_at q.now j.0) y.old j.0 result.0 y.new }
    ensures record_marked_3 { RecordMarked 2 q.now r.0 (record_at q.now j.0) z.old j.0 result.0 z.new }
{
    let e = records::record_at(q, j);
    let d = RecordIndex(c.0 - (e / 2 + e % 2) as usize);
    mark_record(q, x, r, Members::Both, j, e, d);
    mark_record(q, y, r, Members::FirstOnly, j, e, d);
    mark_record(q, z, r, Members::SecondOnly, j, e, d);
    d
}

// All records, from the last to the first: by blocks and bytes where it can be.
fn mark(
    tables: Option<Tables<'_>>,
    q: &[u8],
    x: &mut [u8],
    y: &mut [u8],
    z: &mut [u8],
    r: RecordIndex,
    n: usize,
)
    requires n_bound { (r.0 + n ≤ 4 * length q.now) × (length q.now ≤ max_edges) × Entries q.now r.0 n }
    requires marks_fit { MarksFit r.0 x.old × MarksFit r.0 y.old × MarksFit r.0 z.old }
    ensures marks { Marks 3 q.now r.0 n x.new × Marks 1 q.now r.0 n y.new × Marks 2 q.now r.0 n z.new }
    ensures x_len_unchanged { (length x.new ≡ length x.old) × (length y.new ≡ length y.old) × (length z.new ≡ length z.old) }
{
    let mut i = r.0;
    let mut c = r.0 + n;
    // no `for`: a step is of sixteen records, four or one, by what is found; no struct of i and c: they fall by unlike steps
    while i > 0 {
        if restrict::has_singles(q, r, RecordIndex(i), RecordIndex(c)) {
            i -= restrict::SINGLES;
            c -= restrict::SINGLES;
            mark_singles_for_three(q, x, y, z, RecordIndex(i), RecordIndex(c));
        } else if let Some(lent) = tables
            && let Some(k) = restrict::whole_edges(lent, q, r, RecordIndex(i), RecordIndex(c))
        {
            i -= 4;
            c -= k;
            mark_byte_for_three(lent, q, x, y, z, r, i / 4, RecordIndex(c));
        } else {
            i -= 1;
            let d = mark_record_for_three(q, x, y, z, r, RecordIndex(i), RecordIndex(c));
            c = d.0;
        }
    }
}

// ---- The edges of the three parts of two sets of one width, each in front of one of the rooms: the queue is free once the marks are made, and each room of marks once its records are moved.
pub fn divide(
    a: EdgeBytes<'_>,
    b: EdgeBytes<'_>,
    tables: Option<Tables<'_>>,
    edged: Option<EdgedTable<'_>>,
    q: &mut [u8],
    x: &mut [u8],
    y: &mut [u8],
    z: &mut [u8],
) -> Three
    requires one_width { a.width ≡ b.width }
    requires divide_room { DivideRoom a.bits b.bits q.old x.old y.old z.old }
    ensures { Divided (entry_held a.entry.width a.entry.bits a.entry.bytes.now) (entry_held b.entry.width b.entry.bits b.entry.bytes.now) q.old x.old y.old q.new x.new y.new result }
{
    let u = merge::merge(a, b, tables, q);
    let r = RecordIndex(u.edges / 2);
    let n = u.members;
    mark(tables, q, x, y, z, r, n);
    let both = restrict::collect(x, edged, r, q);
    let only_first = restrict::collect(y, edged, r, x);
    let only_second = restrict::collect(z, edged, r, y);
    Three {
        both,
        only_first,
        only_second,
    }
}
