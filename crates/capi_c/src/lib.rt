// The C interface: the calls of include/loes.h, and those behind the check, which the Rust crate alone calls. Each export is one call of `capi`, which
// has the same name and the same clauses. The target's uint64_t and size_t are usize.
#![tactic(auto)]

ghost use Rattle.std.specs.Prelude.{◌≡◌, true, [], ◌∷◌};
ghost use Rattle.loes.specs.Read.{entry_in};
ghost use Rattle.loes.specs.Cursor.{is_cursor_of};
ghost use Rattle.loes.specs.Calls.{open_call, pack_call, union_call, difference_call, split_call, contains_call, index_of_call, lower_bound_call, key_at_call, rank_call, prefix_call};
ghost use Rattle.weights.specs.Weights.{outputs, pack_weighted_call, post_call, union_weighted_call, difference_weighted_call};
ghost use Rattle.capi.specs.Coded.{gives, coded, opening_of, Tells, range_of, three_coded};
ghost use Rattle.capi.specs.Steps.{step_gives, cursor_gives, cursor_in, is_state, step_call, cursor_call, walk_call};

use bits::{EdgeOffset, MemberIndex};
use capi::{Answer, Cursor, Lengths, Opened, Range, StateAnswer};

// ---- Opening
// Checks an encoding whole and tells its numbers, which are what the functions behind the check ask for.
#[unsafe(no_mangle)]
pub extern "C" fn loes_open(l: &[u8]) -> Opened
    ensures { (result ≡ opening_of (open_call l.now).answer) × (result.refusal ≡ 0 → Tells result.width result.count result.bits l.now) }
{
    capi::loes_open(l)
}

// ---- Building
// The encoding of a batch's keys.
#[unsafe(no_mangle)]
pub extern "C" fn loes_pack(width: usize, batch: &[u8], out: &mut [u8]) -> Answer
    ensures { gives result (out.new ∷ []) ≡ coded (pack_call width batch.now out.old) }
{
    capi::loes_pack(width, batch, out)
}

// The keys in either set.
#[unsafe(no_mangle)]
pub extern "C" fn loes_union(a: &[u8], b: &[u8], out: &mut [u8]) -> Answer
    ensures { gives result (out.new ∷ []) ≡ coded (union_call a.now b.now out.old) }
{
    capi::loes_union(a, b, out)
}

// The keys in the first set but not in the second.
#[unsafe(no_mangle)]
pub extern "C" fn loes_difference(a: &[u8], b: &[u8], out: &mut [u8]) -> Answer
    ensures { gives result (out.new ∷ []) ≡ coded (difference_call a.now b.now out.old) }
{
    capi::loes_difference(a, b, out)
}

// The keys in both sets, in the first only and in the second only.
#[unsafe(no_mangle)]
pub extern "C" fn loes_split(
    a: &[u8],
    b: &[u8],
    both: &mut [u8],
    only_first: &mut [u8],
    only_second: &mut [u8],
) -> Lengths
    ensures { gives result (both.new ∷ only_first.new ∷ only_second.new ∷ []) ≡ three_coded (split_call a.now b.now both.old only_first.old only_second.old) }
{
    capi::loes_split(a, b, both, only_first, only_second)
}

// ---- Questions
// Whether a key is a member: 1, or absent.
#[unsafe(no_mangle)]
pub extern "C" fn loes_contains(l: &[u8], key: &[u8]) -> Answer
    ensures { gives result [] ≡ coded (contains_call l.now key.now) }
{
    capi::loes_contains(l, key)
}

// A key's index among the members, or absent.
#[unsafe(no_mangle)]
pub extern "C" fn loes_index_of(l: &[u8], key: &[u8]) -> Answer
    ensures { gives result [] ≡ coded (index_of_call l.now key.now) }
{
    capi::loes_index_of(l, key)
}

// The index of the smallest member not below a key, or absent.
#[unsafe(no_mangle)]
pub extern "C" fn loes_lower_bound(l: &[u8], key: &[u8]) -> Answer
    ensures { gives result [] ≡ coded (lower_bound_call l.now key.now) }
{
    capi::loes_lower_bound(l, key)
}

// Writes the member at an index to the front of a buffer.
#[unsafe(no_mangle)]
pub extern "C" fn loes_key_at(l: &[u8], index: MemberIndex, out: &mut [u8]) -> Answer
    ensures { gives result (out.new ∷ []) ≡ coded (key_at_call l.now index.0 out.old) }
{
    capi::loes_key_at(l, index, out)
}

// The set edge bits strictly before an offset.
#[unsafe(no_mangle)]
pub extern "C" fn loes_rank(l: &[u8], offset: EdgeOffset) -> Answer
    ensures { gives result [] ≡ coded (rank_call l.now offset.0) }
{
    capi::loes_rank(l, offset)
}

// How many members' own first bits are smaller than a prefix, and how many begin with it.
#[unsafe(no_mangle)]
pub extern "C" fn loes_prefix(l: &[u8], p: usize, bytes: &[u8]) -> Range
    ensures { result ≡ range_of (prefix_call l.now p bytes.now).answer }
{
    capi::loes_prefix(l, p, bytes)
}

// ---- Weights
// Adds an amount to a member's weight: 1, or absent.
#[unsafe(no_mangle)]
pub extern "C" fn loes_post(l: &[u8], list: &mut [i32], key: &[u8], amount: i32) -> Answer
    ensures { gives result (outputs [] list.new) ≡ coded (post_call l.now list.old key.now amount) }
{
    capi::loes_post(l, list, key, amount)
}

// The encoding of a batch's keys, and a list of zeros.
#[unsafe(no_mangle)]
pub extern "C" fn loes_pack_weighted(
    width: usize,
    batch: &[u8],
    out: &mut [u8],
    list: &mut [i32],
) -> Answer
    ensures { gives result (outputs (out.new ∷ []) list.new) ≡ coded (pack_weighted_call width batch.now out.old list.old) }
{
    capi::loes_pack_weighted(width, batch, out, list)
}

// The keys in either set, and their weights.
#[unsafe(no_mangle)]
pub extern "C" fn loes_union_weighted(
    a: &[u8],
    wa: &[i32],
    b: &[u8],
    wb: &[i32],
    out: &mut [u8],
    list: &mut [i32],
) -> Answer
    ensures { gives result (outputs (out.new ∷ []) list.new) ≡ coded (union_weighted_call a.now wa.now b.now wb.now out.old list.old) }
{
    capi::loes_union_weighted(a, wa, b, wb, out, list)
}

// The keys in the first set but not in the second, and their weights.
#[unsafe(no_mangle)]
pub extern "C" fn loes_difference_weighted(
    a: &[u8],
    wa: &[i32],
    b: &[u8],
    out: &mut [u8],
    list: &mut [i32],
) -> Answer
    ensures { gives result (outputs (out.new ∷ []) list.new) ≡ coded (difference_weighted_call a.now wa.now b.now out.old list.old) }
{
    capi::loes_difference_weighted(a, wa, b, out, list)
}

// Moves a lent cursor on to the next member and writes its key to the front of a buffer (document 01: the step).
#[unsafe(no_mangle)]
pub extern "C" fn loes_advance(l: &[u8], cursor: &mut Cursor, out: &mut [u8]) -> Answer
    ensures { cursor_gives result cursor.new out.new ≡ cursor_call l.now cursor.old out.old }
{
    capi::loes_advance(l, cursor, out)
}

// ---- Behind the check, for the Rust crate alone: an encoding by the numbers that opening told of these bytes
#[unsafe(no_mangle)]
pub extern "C" fn loes_unchecked_contains(
    width: usize,
    count: usize,
    bits: usize,
    l: &[u8],
    key: &[u8],
) -> Answer
    requires { Tells width count bits l.now }
    ensures { gives result [] ≡ coded (contains_call l.now key.now) }
{
    capi::loes_unchecked_contains(width, count, bits, l, key)
}

#[unsafe(no_mangle)]
pub extern "C" fn loes_unchecked_index_of(
    width: usize,
    count: usize,
    bits: usize,
    l: &[u8],
    key: &[u8],
) -> Answer
    requires { Tells width count bits l.now }
    ensures { gives result [] ≡ coded (index_of_call l.now key.now) }
{
    capi::loes_unchecked_index_of(width, count, bits, l, key)
}

#[unsafe(no_mangle)]
pub extern "C" fn loes_unchecked_lower_bound(
    width: usize,
    count: usize,
    bits: usize,
    l: &[u8],
    key: &[u8],
) -> Answer
    requires { Tells width count bits l.now }
    ensures { gives result [] ≡ coded (lower_bound_call l.now key.now) }
{
    capi::loes_unchecked_lower_bound(width, count, bits, l, key)
}

#[unsafe(no_mangle)]
pub extern "C" fn loes_unchecked_key_at(
    width: usize,
    count: usize,
    bits: usize,
    l: &[u8],
    index: MemberIndex,
    out: &mut [u8],
) -> Answer
    requires { Tells width count bits l.now }
    ensures { gives result (out.new ∷ []) ≡ coded (key_at_call l.now index.0 out.old) }
{
    capi::loes_unchecked_key_at(width, count, bits, l, index, out)
}

#[unsafe(no_mangle)]
pub extern "C" fn loes_unchecked_rank(
    width: usize,
    count: usize,
    bits: usize,
    l: &[u8],
    offset: EdgeOffset,
) -> Answer
    requires { Tells width count bits l.now }
    ensures { gives result [] ≡ coded (rank_call l.now offset.0) }
{
    capi::loes_unchecked_rank(width, count, bits, l, offset)
}

#[unsafe(no_mangle)]
pub extern "C" fn loes_unchecked_prefix(
    width: usize,
    count: usize,
    bits: usize,
    l: &[u8],
    p: usize,
    bytes: &[u8],
) -> Range
    requires { Tells width count bits l.now }
    ensures { result ≡ range_of (prefix_call l.now p bytes.now).answer }
{
    capi::loes_unchecked_prefix(width, count, bits, l, p, bytes)
}

#[unsafe(no_mangle)]
pub extern "C" fn loes_unchecked_post(
    width: usize,
    count: usize,
    bits: usize,
    l: &[u8],
    list: &mut [i32],
    key: &[u8],
    amount: i32,
) -> Answer
    requires { Tells width count bits l.now }
    ensures { gives result (outputs [] list.new) ≡ coded (post_call l.now list.old key.now amount) }
{
    capi::loes_unchecked_post(width, count, bits, l, list, key, amount)
}

// From any cursor: 15 for what is no state, then as the cursor's step says.
#[unsafe(no_mangle)]
pub extern "C" fn loes_unchecked_advance(
    width: usize,
    count: usize,
    bits: usize,
    l: &[u8],
    state: usize,
    offsets: &mut [usize],
    out: &mut [u8],
) -> StateAnswer
    requires { Tells width count bits l.now }
    ensures { step_gives result.answer result.state offsets.new out.new ≡ step_call l.now state offsets.old out.old }
{
    capi::loes_unchecked_advance(width, count, bits, l, state, offsets, out)
}

// The same for a cursor that is right, as a step that was not refused 15 leaves it: 15 is not tested.
#[unsafe(no_mangle)]
pub extern "C" fn loes_unchecked_next(
    width: usize,
    count: usize,
    bits: usize,
    l: &[u8],
    state: usize,
    offsets: &mut [usize],
    out: &mut [u8],
) -> StateAnswer
    requires { Tells width count bits l.now × (is_state state ≡ true) × (is_cursor_of (entry_in l.now) (cursor_in state offsets.old) ≡ true) }
    ensures { step_gives result.answer result.state offsets.new out.new ≡ step_call l.now state offsets.old out.old }
{
    capi::loes_unchecked_next(width, count, bits, l, state, offsets, out)
}

// That step, and if it wrote a key, as many more as the buffer has room for.
#[unsafe(no_mangle)]
pub extern "C" fn loes_unchecked_walk(
    width: usize,
    count: usize,
    bits: usize,
    l: &[u8],
    state: usize,
    offsets: &mut [usize],
    out: &mut [u8],
) -> StateAnswer
    requires { Tells width count bits l.now × (is_state state ≡ true) × (is_cursor_of (entry_in l.now) (cursor_in state offsets.old) ≡ true) }
    ensures { step_gives result.answer result.state offsets.new out.new ≡ walk_call l.now state offsets.old out.old }
{
    capi::loes_unchecked_walk(width, count, bits, l, state, offsets, out)
}
