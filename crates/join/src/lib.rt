// Union and difference of two encodings.
#![tactic(auto)]

ghost use Rattle.std.specs.Prelude.{◌≡◌, ◌*◌, ◌<◌, length};
ghost use Rattle.loes.specs.Entry.{edges_of};
ghost use Rattle.loes.specs.Read.{entry_in};
ghost use Rattle.loes.specs.Held.{entry_held};
ghost use Rattle.loes.specs.Model.{union_entry, difference_entry};
ghost use Rattle.loes.specs.Calls.{union_call, difference_call};
ghost use Rattle.build.specs.Writing.{written_outcome};
ghost use Rattle.merge.specs.Union.{QueueRoom, Merged};
ghost use Rattle.restrict.specs.Restriction.{Subtracts};
ghost use Rattle.join.specs.Joining.{Both, join_of, RoomFor, join_call};

pub mod joined;
pub mod pair;

use bits::RecordIndex;
use encoding::Encoding;
use encoding::opening::Opened;
use join_tables::room::TableRoom;
use joined::JoinedEdges;
use loes::Refusal;
use merge::Sizes;
use pair::Pair;
use records::{EdgeBytes, EdgedTable};
use restrict::Remainder;

// Which of the two.
#[derive(Clone, Copy)]
pub enum Join {
    Union,
    Difference,
}

// ---- Two encodings
// Both are opened: the first's refusal, the second's, then 13.
pub fn open_both<'a, 'b>(a: &'a [u8], b: &'b [u8]) -> Result<Pair<'a, 'b>, Refusal>
    ensures { Both a.now b.now result }
{
    let first = encoding::open(a)?;
    let second = encoding::open(b)?;
    if first.encoding.width != second.encoding.width {
        return Err(Refusal::TwoWidths);
    }
    Ok(Pair { first, second })
}

// The edges of an opened encoding: two more fields stand behind them, so a window of records may read on.
pub fn edge_bytes<'a>(o: Opened<'a>) -> EdgeBytes<'a>
    ensures place { (result.width ≡ o.entry.encoding.width) × (result.bits ≡ o.entry.encoding.bits) }
    ensures held { entry_held result.width result.bits result.bytes.now ≡ entry_in o.entry.bytes.now }
{
    EdgeBytes {
        width: o.encoding.width,
        bits: o.encoding.bits,
        bytes: &o.bytes[o.encoding.edges..],
    }
}

// ---- Their edges joined
// Filling the tables takes the time of some hundred records, and narrow levels hardly use them: they pay from this many edge bits of both on, and so many more for each level, in a union and in a difference.
const TABLES_FROM: usize = 256;

const UNION_LEVEL: usize = 16;

const DIFFERENCE_LEVEL: usize = 8;

// The sets that two edge sequences hold, merged, with tables where they pay.
pub fn merged(a: EdgeBytes<'_>, b: EdgeBytes<'_>, q: &mut [u8]) -> Sizes
    requires one_width { a.width ≡ b.width }
    requires queue_room { QueueRoom a.bits b.bits q.old }
    ensures { Merged (entry_held a.entry.width a.entry.bits a.entry.bytes.now) (entry_held b.entry.width b.entry.bits b.entry.bytes.now) q.old q.new result.edges result.members }
{
    if a.bits + b.bits < UNION_LEVEL * a.width + TABLES_FROM {
        return merge::merge(a, b, None, q);
    }
    let mut room = TableRoom::new();
    merge::merge(a, b, Some(room.fill()), q)
}

// The edges of the difference, with tables where they pay; the flags of the union's members stay in the queue.
pub fn subtracted(a: EdgeBytes<'_>, b: EdgeBytes<'_>, q: &mut [u8], edges: &mut [u8]) -> Remainder
    requires one_width { a.width ≡ b.width }
    requires queue_room { QueueRoom a.bits b.bits q.old × (a.bits < 8 * length edges.old) }
    ensures { Subtracts (entry_held a.entry.width a.entry.bits a.entry.bytes.now) (entry_held b.entry.width b.entry.bits b.entry.bytes.now) q.old edges.old q.new edges.new result.edges result.flags.0 result.flagged }
{
    if a.bits + b.bits < DIFFERENCE_LEVEL * a.width + TABLES_FROM {
        return restrict::subtract(a, b, None, None, q, edges);
    }
    let mut room = TableRoom::new();
    let mut entries = [0; join_tables::EDGED_ENTRIES];
    join_tables::fill_edged(&mut entries);
    let edged = EdgedTable { entries: &entries };
    restrict::subtract(a, b, Some(room.fill()), Some(edged), q, edges)
}

// The edges of the union alone.
fn united<'q>(a: EdgeBytes<'_>, b: EdgeBytes<'_>, q: &'q mut [u8]) -> JoinedEdges<'q>
    requires one_width { a.width ≡ b.width }
    requires queue_room { QueueRoom a.bits b.bits q.old }
    ensures { entry_held result.width result.bits result.bytes.now ≡ union_entry (entry_held a.entry.width a.entry.bits a.entry.bytes.now) (entry_held b.entry.width b.entry.bits b.entry.bytes.now) }
{
    let u = merged(a, b, q);
    records::seal(q, RecordIndex(u.edges / 2));
    JoinedEdges {
        width: a.width,
        bits: u.edges,
        bytes: q,
    }
}

// The edges of the difference alone.
fn left<'e>(
    a: EdgeBytes<'_>,
    b: EdgeBytes<'_>,
    q: &mut [u8],
    edges: &'e mut [u8],
) -> JoinedEdges<'e>
    requires one_width { a.width ≡ b.width }
    requires queue_room { QueueRoom a.bits b.bits q.old × (a.bits < 8 * length edges.old) }
    ensures { entry_held result.width result.bits result.bytes.now ≡ difference_entry (entry_held a.entry.width a.entry.bits a.entry.bytes.now) (entry_held b.entry.width b.entry.bits b.entry.bytes.now) }
{
    let d = subtracted(a, b, q, edges);
    JoinedEdges {
        width: a.width,
        bits: d.edges,
        bytes: edges,
    }
}

// ---- Rooms. For two encodings of at most n bytes each, so at most 8 n edges: a queue of QUEUE_BYTES * n + SPARE bytes for the flags that merging pushes, two bits for each edge of both, and n + SPARE bytes for the edges of a difference, which are no more than the first's. Small ones are quick to clear.
// The bytes of a queue for each of n: sixteen flags.
const QUEUE_BYTES: usize = 4;
// The bytes behind them: a run put at the end takes eight, the flag of the root begins one more.
pub const SPARE: usize = 8 + 1;

// The greatest n of tiny encodings.
pub const TINY: usize = 512;

pub const TINY_QUEUE: usize = QUEUE_BYTES * TINY + SPARE;

pub const TINY_EDGES: usize = TINY + SPARE;

// Of small ones.
pub const SMALL: usize = 2048;

pub const SMALL_QUEUE: usize = QUEUE_BYTES * SMALL + SPARE;

pub const SMALL_EDGES: usize = SMALL + SPARE;

// Of those of middle size.
pub const MIDDLE: usize = 16384;

pub const MIDDLE_QUEUE: usize = QUEUE_BYTES * MIDDLE + SPARE;

pub const MIDDLE_EDGES: usize = MIDDLE + SPARE;

// Of any, by the most edges.
pub const LARGE: usize = Encoding::MAX_EDGES / 8;

pub const LARGE_QUEUE: usize = QUEUE_BYTES * LARGE + SPARE;

pub const LARGE_EDGES: usize = LARGE + SPARE;

// Joins in rooms of its own, those for encodings of at most N bytes. It stays a function when compiled, one for each of the sizes: a small join does not touch the stack of a large one.
#[inline(never)]
fn join_in<const N: usize, const QUEUE: usize, const EDGES: usize>(
    kind: Join,
    a: &[u8],
    b: &[u8],
    out: &mut [u8],
) -> Result<usize, Refusal>
    requires { RoomFor N (length a.now) (length b.now) QUEUE EDGES }
    ensures { written_outcome result out.new ≡ join_call (join_of kind) a.now b.now out.old }
{
    let pair = open_both(a, b)?;
    let first = edge_bytes(pair.first);
    let second = edge_bytes(pair.second);
    let mut q = [0; QUEUE];
    match kind {
        Join::Union => united(first, second, &mut q).write(out),
        Join::Difference => {
            let mut edges = [0; EDGES];
            left(first, second, &mut q, &mut edges).write(out)
        }
    }
}

// Joins in the smallest rooms that serve the longer of the two.
#[tactic(auto, unfolding(crate::specs::Joining::is_size))]
fn join_by_length(kind: Join, a: &[u8], b: &[u8], out: &mut [u8]) -> Result<usize, Refusal>
    ensures { written_outcome result out.new ≡ join_call (join_of kind) a.now b.now out.old }
{
    let n = a.len().max(b.len());
    if n <= TINY {
        join_in::<TINY, TINY_QUEUE, TINY_EDGES>(kind, a, b, out)
    } else if n <= SMALL {
        join_in::<SMALL, SMALL_QUEUE, SMALL_EDGES>(kind, a, b, out)
    } else if n <= MIDDLE {
        join_in::<MIDDLE, MIDDLE_QUEUE, MIDDLE_EDGES>(kind, a, b, out)
    } else {
        join_in::<LARGE, LARGE_QUEUE, LARGE_EDGES>(kind, a, b, out)
    }
}

// ---- The calls
// The keys in either set, written to the front of a buffer (document 01: fold).
pub fn union(a: &[u8], b: &[u8], out: &mut [u8]) -> Result<usize, Refusal>
    ensures { written_outcome result out.new ≡ union_call a.now b.now out.old }
{
    join_by_length(Join::Union, a, b, out)
}

// The keys in the first set but not in the second (document 01: strike).
pub fn difference(a: &[u8], b: &[u8], out: &mut [u8]) -> Result<usize, Refusal>
    ensures { written_outcome result out.new ≡ difference_call a.now b.now out.old }
{
    join_by_length(Join::Difference, a, b, out)
}
