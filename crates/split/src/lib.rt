// Two encodings split in three: the keys in both sets, in the first only, in the second only.
#![tactic(auto)]

ghost use Rattle.std.specs.Prelude.{◌≡◌, length};
ghost use Rattle.loes.specs.Held.{entry_held};
ghost use Rattle.loes.specs.Model.{both_entry, difference_entry};
ghost use Rattle.loes.specs.Calls.{split_call};
ghost use Rattle.divide.specs.Division.{Divided, DivideRoom};
ghost use Rattle.split.specs.Splitting.{SplitRoom, split_outcome};

pub mod parts;

use divide::Three;
use join::joined::JoinedEdges;
use join_tables::room::TableRoom;
use loes::Refusal;
use parts::Parts;
use records::{EdgeBytes, EdgedTable};

// ---- The edges of the three
// Tables pay from this many edge bits of both on, and so many more for each level: sooner than in a difference, as one filling serves three.
const TABLES_FROM: usize = 64;

const TABLES_LEVEL: usize = 8;

// One merge divided in three, with tables where they pay: the parts' edges stand in q, x and y in the end.
fn divided(
    a: EdgeBytes<'_>,
    b: EdgeBytes<'_>,
    q: &mut [u8],
    x: &mut [u8],
    y: &mut [u8],
    z: &mut [u8],
) -> Three
    requires one_width { a.width ≡ b.width }
    requires divide_room { DivideRoom a.bits b.bits q.old x.old y.old z.old }
    ensures { Divided (entry_held a.entry.width a.entry.bits a.entry.bytes.now) (entry_held b.entry.width b.entry.bits b.entry.bytes.now) q.old x.old y.old q.new x.new y.new result }
{
    if a.bits + b.bits < TABLES_LEVEL * a.width + TABLES_FROM {
        return divide::divide(a, b, None, None, q, x, y, z);
    }
    let mut room = TableRoom::new();
    let mut entries = [0; join_tables::EDGED_ENTRIES];
    join_tables::fill_edged(&mut entries);
    let edged = EdgedTable { entries: &entries };
    divide::divide(a, b, Some(room.fill()), Some(edged), q, x, y, z)
}

// The three parts.
fn parts_of<'r>(
    a: EdgeBytes<'_>,
    b: EdgeBytes<'_>,
    q: &'r mut [u8],
    x: &'r mut [u8],
    y: &'r mut [u8],
    z: &mut [u8],
) -> Parts<'r>
    requires one_width { a.width ≡ b.width }
    requires divide_room { DivideRoom a.bits b.bits q.old x.old y.old z.old }
    ensures both { entry_held result.both.width result.both.bits result.both.bytes.now ≡ both_entry (entry_held a.entry.width a.entry.bits a.entry.bytes.now) (entry_held b.entry.width b.entry.bits b.entry.bytes.now) }
    ensures only_first { entry_held result.only_first.width result.only_first.bits result.only_first.bytes.now ≡ difference_entry (entry_held a.entry.width a.entry.bits a.entry.bytes.now) (entry_held b.entry.width b.entry.bits b.entry.bytes.now) }
    ensures only_second { entry_held result.only_second.width result.only_second.bits result.only_second.bytes.now ≡ difference_entry (entry_held b.entry.width b.entry.bits b.entry.bytes.now) (entry_held a.entry.width a.entry.bits a.entry.bytes.now) }
{
    let k = divided(a, b, q, x, y, z);
    let width = a.width;
    Parts {
        both: JoinedEdges {
            width,
            bits: k.both,
            bytes: q,
        },
        only_first: JoinedEdges {
            width,
            bits: k.only_first,
            bytes: x,
        },
        only_second: JoinedEdges {
            width,
            bits: k.only_second,
            bytes: y,
        },
    }
}

// ---- Rooms: the queue of a join, and for marks of a union's edges, which are no more than those of both.
const TINY_MARKS: usize = 2 * join::TINY + join::SPARE;

const SMALL_MARKS: usize = 2 * join::SMALL + join::SPARE;

const MIDDLE_MARKS: usize = 2 * join::MIDDLE + join::SPARE;

const LARGE_MARKS: usize = 2 * join::LARGE + join::SPARE;

// Splits in rooms of its own, those for encodings of at most N bytes. It stays a function when compiled, one for each of the sizes: a small split does not touch the stack of a large one.
#[inline(never)]
fn split_in<const N: usize, const QUEUE: usize, const MARKS: usize>(
    a: &[u8],
    b: &[u8],
    both: &mut [u8],
    only_first: &mut [u8],
    only_second: &mut [u8],
) -> Result<Three, Refusal>
    requires { SplitRoom N (length a.now) (length b.now) QUEUE MARKS }
    ensures { split_outcome result both.new only_first.new only_second.new ≡ split_call a.now b.now both.old only_first.old only_second.old }
{
    let pair = join::open_both(a, b)?;
    let first = join::edge_bytes(pair.first);
    let second = join::edge_bytes(pair.second);
    let mut q = [0; QUEUE];
    let mut x = [0; MARKS];
    let mut y = [0; MARKS];
    let mut z = [0; MARKS];
    let parts = parts_of(first, second, &mut q, &mut x, &mut y, &mut z);
    parts.write(both, only_first, only_second)
}

// ---- The call
// The keys in both sets, in the first only and in the second only, each set's encoding written to the front of its own buffer (document 02, request 3). The longer of the two encodings tells the room.
#[tactic(auto, unfolding(join::specs::Joining::is_size))]
pub fn split(
    a: &[u8],
    b: &[u8],
    both: &mut [u8],
    only_first: &mut [u8],
    only_second: &mut [u8],
) -> Result<Three, Refusal>
    ensures { split_outcome result both.new only_first.new only_second.new ≡ split_call a.now b.now both.old only_first.old only_second.old }
{
    let n = a.len().max(b.len());
    if n <= join::TINY {
        split_in::<{ join::TINY }, { join::TINY_QUEUE }, TINY_MARKS>(
            a,
            b,
            both,
            only_first,
            only_second,
        )
    } else if n <= join::SMALL {
        split_in::<{ join::SMALL }, { join::SMALL_QUEUE }, SMALL_MARKS>(
            a,
            b,
            both,
            only_first,
            only_second,
        )
    } else if n <= join::MIDDLE {
        split_in::<{ join::MIDDLE }, { join::MIDDLE_QUEUE }, MIDDLE_MARKS>(
            a,
            b,
            both,
            only_first,
            only_second,
        )
    } else {
        split_in::<{ join::LARGE }, { join::LARGE_QUEUE }, LARGE_MARKS>(
            a,
            b,
            both,
            only_first,
            only_second,
        )
    }
}
