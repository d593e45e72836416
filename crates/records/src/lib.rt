// Records in bytes: one at a time, in windows and runs of several, and looked up in tables.
#![tactic(auto)]

ghost use Rattle.std.specs.Prelude.{◌+◌, ◌*◌, ◌/◌, ◌%◌, ◌^◌, ◌<◌, ◌≤◌, ◌≡◌, ◌++◌, length, take, drop};
ghost use Rattle.loes.specs.Limits.{max_edges};
ghost use Rattle.records.specs.Records.{has_edge, record_of_code, code_in, record_at, records_at, with_record, Put, Pushed, Sealed};
ghost use Rattle.records.specs.Numbers.{records_of, eight_of, Short, Appended};

mod edge_bytes;
mod edged;
mod kinds;
mod lent;
mod runs;

use bits::RecordIndex;
pub use edge_bytes::EdgeBytes;
pub use edged::EdgedTable;
pub use kinds::Kept;
pub use lent::{Parts, Tables};
pub use runs::Run;

// ---- Records in bytes, as numbers 2·on_zero + on_one
// A record is no struct here: the format lays down its two bits, four records to a byte, and joins shift and mask many at once.

// Record k of a byte.
pub fn record_in(x: u8, k: usize) -> u8
    requires { k < 4 }
    ensures { (result ≡ code_in x k) × (result < 4) }
{
    (x >> (6 - 2 * k)) % 4
}

// Record i of bytes.
pub fn record_at(l: &[u8], i: RecordIndex) -> u8
    requires { i.0 / 4 < length l.now }
    ensures { (record_of_code result ≡ record_at l.now i.0) × (result < 4) }
{
    record_in(l[i.0 / 4], i.0 % 4)
}

// A byte with its record k set to z.
fn with_record(old: u8, k: usize, z: u8) -> u8
    requires { (k < 4) × (z < 4) }
    ensures { result ≡ with_record old k z }
{
    let s = 6 - 2 * k;
    (old & (255 - (3 << s))) | (z << s)
}

// Record i of bytes is set to z.
pub fn put_record(out: &mut [u8], i: RecordIndex, z: u8)
    requires { (i.0 / 4 < length out.old) × (z < 4) }
    ensures { Put i.0 z out.old out.new }
{
    let at = i.0 / 4;
    let old = out[at];
    out[at] = with_record(old, i.0 % 4, z);
}

// Record z is put behind the first n, which grow by it if it has an edge. The bytes and their end make no struct: in a merge one slice has two ends, of records written and of flags.
pub fn push(out: &mut [u8], n: RecordIndex, z: u8) -> RecordIndex
    requires { (n.0 < 4 * length out.old) × (z < 4) × (n.0 ≤ 4 * max_edges) }
    ensures { Pushed n.0 z out.old out.new result.0 }
{
    put_record(out, n, z);
    if z > 0 { RecordIndex(n.0 + 1) } else { n }
}

// The records behind the first k, up to the end of their byte, are cleared.
pub fn seal(out: &mut [u8], k: RecordIndex)
    requires { (k.0 ≤ 4 * length out.old) × (k.0 ≤ 4 * max_edges) }
    ensures { Sealed k.0 out.old out.new }
{
    for i in k.0..k.0.next_multiple_of(4) {
        put_record(out, RecordIndex(i), 0);
    }
}

// ---- Several records at a time: in windows of bytes, and in runs

// The sixteen records of the four bytes from byte j on. Just these are read: a wider load would wait for bytes that were written a moment ago.
pub fn block(l: &[u8], j: usize) -> usize
    requires { j + 3 < length l.now }
    ensures { (records_of 16 result ≡ records_at l.now (4 * j) 16) × (result < 2 ^ 32) }
{
    u32::from_be_bytes([l[j], l[j + 1], l[j + 2], l[j + 3]]) as usize
}

// Eight records from record i on, in the upper bits of a word.
pub fn window(l: &[u8], i: RecordIndex) -> usize
    requires { i.0 / 4 + 3 < length l.now }
    ensures { eight_of result ≡ records_at l.now i.0 8 }
{
    block(l, i.0 / 4) << (32 + 2 * (i.0 % 4))
}

// Four records behind the first n of such eight.
pub fn four_in(x: usize, n: usize) -> usize
    requires { n ≤ 4 }
    ensures { (records_of 4 result ≡ take 4 (drop n (eight_of x))) × (result < 256) }
{
    (x << (2 * n)) >> 56
}

// The run in an entry of a table: 256 times its bits, and their number.
fn run_of(h: usize) -> Run
    requires { (h % 256 < 2 ^ (h / 256)) × (2 * (h / 256 / 2) ≡ h / 256) }
    ensures { (result.records ≡ h % 256) × (result.bits ≡ h / 256) }
{
    Run {
        records: h % 256,
        bits: h / 256,
    }
}

// A run put behind the first k records. Eight bytes are written, which is one store: what is behind the run is cleared.
pub fn append(out: &mut [u8], k: RecordIndex, r: Run)
    requires { (k.0 / 4 + 7 < length out.old) × (r.bits ≤ 32) }
    ensures { Appended k.0 (r.bits / 2) r.records out.old out.new }
{
    let at = k.0 / 4;
    let n = r.bits;
    let p = 2 * (k.0 % 4);
    let old = out[at] as usize;
    let w = ((old >> (8 - p)) << n) + r.records;
    let v = (w * 2) << (63 - p - n);
    out[at..at + 8].copy_from_slice(&v.to_be_bytes());
}
