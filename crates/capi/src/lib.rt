// The C interface: numbers and byte strings in, small structs out. Crate `capi_c` exports it. The target's uint64_t and size_t are usize.
#![tactic(auto)]

ghost use Rattle.std.specs.Prelude.{◌≡◌, [], ◌∷◌};
ghost use Rattle.loes.specs.Calls.{open_call, pack_call, union_call, difference_call, split_call, contains_call, index_of_call, lower_bound_call, key_at_call, rank_call, prefix_call};
ghost use Rattle.weights.specs.Weights.{outputs, pack_weighted_call, post_call, union_weighted_call, difference_weighted_call};
ghost use Rattle.capi.specs.Coded.{gives, coded, opening_of, Tells, range_of, three_coded};
ghost use Rattle.capi.specs.Steps.{cursor_gives, moves, stepped_coded, cursor_call};

mod answers;
mod cursors;
mod unchecked;

pub use answers::{Answer, Lengths, Opened, Range};
use bits::{EdgeOffset, MemberIndex};
use cursor::Stepped;
pub use cursors::{Cursor, CursorAnswer, StateAnswer};
use loes::Refusal;
pub use unchecked::{
    loes_unchecked_advance, loes_unchecked_contains, loes_unchecked_index_of,
    loes_unchecked_key_at, loes_unchecked_lower_bound, loes_unchecked_next, loes_unchecked_post,
    loes_unchecked_prefix, loes_unchecked_rank, loes_unchecked_walk,
};

// ---- Opening
// Checks an encoding whole and tells its numbers, which are what the functions behind the check ask for.
pub fn loes_open(l: &[u8]) -> Opened
    ensures { (result ≡ opening_of (open_call l.now).answer) × (result.refusal ≡ 0 → Tells result.width result.count result.bits l.now) }
{
    Opened::from(encoding::open(l))
}

// ---- Building
// The encoding of a batch's keys.
pub fn loes_pack(width: usize, batch: &[u8], out: &mut [u8]) -> Answer
    ensures { gives result (out.new ∷ []) ≡ coded (pack_call width batch.now out.old) }
{
    Answer::from(pack::pack(width, batch, out))
}

// The keys in either set.
pub fn loes_union(a: &[u8], b: &[u8], out: &mut [u8]) -> Answer
    ensures { gives result (out.new ∷ []) ≡ coded (union_call a.now b.now out.old) }
{
    Answer::from(join::union(a, b, out))
}

// The keys in the first set but not in the second.
pub fn loes_difference(a: &[u8], b: &[u8], out: &mut [u8]) -> Answer
    ensures { gives result (out.new ∷ []) ≡ coded (difference_call a.now b.now out.old) }
{
    Answer::from(join::difference(a, b, out))
}

// The keys in both sets, in the first only and in the second only.
pub fn loes_split(
    a: &[u8],
    b: &[u8],
    both: &mut [u8],
    only_first: &mut [u8],
    only_second: &mut [u8],
) -> Lengths
    ensures { gives result (both.new ∷ only_first.new ∷ only_second.new ∷ []) ≡ three_coded (split_call a.now b.now both.old only_first.old only_second.old) }
{
    Lengths::from(split::split(a, b, both, only_first, only_second))
}

// ---- Questions
// Whether a key is a member: 1, or absent.
pub fn loes_contains(l: &[u8], key: &[u8]) -> Answer
    ensures { gives result [] ≡ coded (contains_call l.now key.now) }
{
    Answer::from(query::contains(l, key))
}

// A key's index among the members, or absent.
pub fn loes_index_of(l: &[u8], key: &[u8]) -> Answer
    ensures { gives result [] ≡ coded (index_of_call l.now key.now) }
{
    Answer::from(query::index_of(l, key))
}

// The index of the smallest member not below a key, or absent.
pub fn loes_lower_bound(l: &[u8], key: &[u8]) -> Answer
    ensures { gives result [] ≡ coded (lower_bound_call l.now key.now) }
{
    Answer::from(query::lower_bound(l, key))
}

// Writes the member at an index to the front of a buffer.
pub fn loes_key_at(l: &[u8], index: MemberIndex, out: &mut [u8]) -> Answer
    ensures { gives result (out.new ∷ []) ≡ coded (key_at_call l.now index.0 out.old) }
{
    Answer::of_key(query::key_at(l, index, out))
}

// The set edge bits strictly before an offset.
pub fn loes_rank(l: &[u8], offset: EdgeOffset) -> Answer
    ensures { gives result [] ≡ coded (rank_call l.now offset.0) }
{
    Answer::from(encoding::rank(l, offset))
}

// How many members' own first bits are smaller than a prefix, and how many begin with it.
pub fn loes_prefix(l: &[u8], p: usize, bytes: &[u8]) -> Range
    ensures { result ≡ range_of (prefix_call l.now p bytes.now).answer }
{
    Range::from(prefix::prefix(l, p, bytes))
}

// ---- Weights
// Adds an amount to a member's weight: 1, or absent.
pub fn loes_post(l: &[u8], list: &mut [i32], key: &[u8], amount: i32) -> Answer
    ensures { gives result (outputs [] list.new) ≡ coded (post_call l.now list.old key.now amount) }
{
    Answer::from(weights::post(l, list, key, amount))
}

// The encoding of a batch's keys, and a list of zeros.
pub fn loes_pack_weighted(width: usize, batch: &[u8], out: &mut [u8], list: &mut [i32]) -> Answer
    ensures { gives result (outputs (out.new ∷ []) list.new) ≡ coded (pack_weighted_call width batch.now out.old list.old) }
{
    Answer::from(weights::pack_weighted(width, batch, out, list))
}

// The keys in either set, and their weights.
pub fn loes_union_weighted(
    a: &[u8],
    wa: &[i32],
    b: &[u8],
    wb: &[i32],
    out: &mut [u8],
    list: &mut [i32],
) -> Answer
    ensures { gives result (outputs (out.new ∷ []) list.new) ≡ coded (union_weighted_call a.now wa.now b.now wb.now out.old list.old) }
{
    Answer::from(weights::union_weighted(a, wa, b, wb, out, list))
}

// The keys in the first set but not in the second, and their weights.
pub fn loes_difference_weighted(
    a: &[u8],
    wa: &[i32],
    b: &[u8],
    out: &mut [u8],
    list: &mut [i32],
) -> Answer
    ensures { gives result (outputs (out.new ∷ []) list.new) ≡ coded (difference_weighted_call a.now wa.now b.now out.old list.old) }
{
    Answer::from(weights::difference_weighted(a, wa, b, out, list))
}

// ---- The cursor
// The step of a cursor, if the encoding opens and the cursor's state is one.
fn stepped(l: &[u8], c: Cursor, out: &mut [u8]) -> Result<Stepped, Refusal>
    ensures { stepped_coded result c out.new ≡ cursor_call l.now c out.old }
{
    let o = encoding::open(l)?;
    let state = cursors::state_of(c.state).ok_or(Refusal::BadCursor)?;
    Ok(cursor::advanced(o, cursor::Cursor::of(state, c.offsets), out))
}

// The step by value.
pub fn advanced(l: &[u8], c: Cursor, out: &mut [u8]) -> CursorAnswer
    ensures { moves result out.new ≡ cursor_call l.now c out.old }
{
    match stepped(l, c, out) {
        Ok(s) => CursorAnswer::from(s),
        Err(k) => CursorAnswer {
            cursor: c,
            answer: Answer::refused(k),
        },
    }
}

// Moves a lent cursor on to the next member and writes its key to the front of a buffer (document 01: the step).
pub fn loes_advance(l: &[u8], cursor: &mut Cursor, out: &mut [u8]) -> Answer
    ensures { cursor_gives result cursor.new out.new ≡ cursor_call l.now cursor.old out.old }
{
    let s = advanced(l, *cursor, out);
    *cursor = s.cursor;
    s.answer
}
