// Behind the check, for the Rust crate alone: an encoding by the numbers that opening told of these bytes.
ghost use Rattle.std.specs.Prelude.{◌≡◌, true, [], ◌∷◌};
ghost use Rattle.loes.specs.Read.{entry_in};
ghost use Rattle.loes.specs.Cursor.{is_cursor_of};
ghost use Rattle.loes.specs.Calls.{contains_call, index_of_call, lower_bound_call, key_at_call, rank_call, prefix_call};
ghost use Rattle.weights.specs.Weights.{outputs, post_call};
ghost use Rattle.capi.specs.Coded.{gives, coded, Tells, range_of};
ghost use Rattle.capi.specs.Steps.{step_gives, cursor_in, is_state, step_call, walk_call};

use crate::answers::{Answer, Range};
use crate::cursors::{StateAnswer, state_of};
use bits::{EdgeOffset, MemberIndex};
use encoding::{Encoding, opening};
use loes::Refusal;

// The encoding of the numbers that opening told.
fn opened(width: usize, count: usize, bits: usize, l: &[u8]) -> opening::Opened<'_>
    requires { Tells width count bits l.now }
    ensures { result.bytes.now ≡ l.now }
{
    opening::Opened::of(l, Encoding::new(width, count, bits))
}

// ---- Questions
pub fn loes_unchecked_contains(
    width: usize,
    count: usize,
    bits: usize,
    l: &[u8],
    key: &[u8],
) -> Answer
    requires { Tells width count bits l.now }
    ensures { gives result [] ≡ coded (contains_call l.now key.now) }
{
    let o = opened(width, count, bits, l);
    Answer::from(query::contains_in(o, key))
}

pub fn loes_unchecked_index_of(
    width: usize,
    count: usize,
    bits: usize,
    l: &[u8],
    key: &[u8],
) -> Answer
    requires { Tells width count bits l.now }
    ensures { gives result [] ≡ coded (index_of_call l.now key.now) }
{
    let o = opened(width, count, bits, l);
    Answer::from(query::index_of_in(o, key))
}

pub fn loes_unchecked_lower_bound(
    width: usize,
    count: usize,
    bits: usize,
    l: &[u8],
    key: &[u8],
) -> Answer
    requires { Tells width count bits l.now }
    ensures { gives result [] ≡ coded (lower_bound_call l.now key.now) }
{
    let o = opened(width, count, bits, l);
    Answer::from(query::lower_bound_in(o, key))
}

pub fn loes_unchecked_key_at(
    width: usize,
    count: usize,
    bits: usize,
    l: &[u8],
    index: MemberIndex,
    out: &mut [u8],
) -> Answer
    requires { Tells width count bits l.now }
    ensures { gives result (out.new ∷ []) ≡ coded (key_at_call l.now index.0 out.old) }
{
    let o = opened(width, count, bits, l);
    Answer::of_key(query::key_at_in(o, index, out))
}

pub fn loes_unchecked_rank(
    width: usize,
    count: usize,
    bits: usize,
    l: &[u8],
    offset: EdgeOffset,
) -> Answer
    requires { Tells width count bits l.now }
    ensures { gives result [] ≡ coded (rank_call l.now offset.0) }
{
    let o = opened(width, count, bits, l);
    Answer::from(o.rank(offset))
}

pub fn loes_unchecked_prefix(
    width: usize,
    count: usize,
    bits: usize,
    l: &[u8],
    p: usize,
    bytes: &[u8],
) -> Range
    requires { Tells width count bits l.now }
    ensures { result ≡ range_of (prefix_call l.now p bytes.now).answer }
{
    let o = opened(width, count, bits, l);
    Range::from(prefix::prefix_in(o, p, bytes))
}

pub fn loes_unchecked_post(
    width: usize,
    count: usize,
    bits: usize,
    l: &[u8],
    list: &mut [i32],
    key: &[u8],
    amount: i32,
) -> Answer
    requires { Tells width count bits l.now }
    ensures { gives result (outputs [] list.new) ≡ coded (post_call l.now list.old key.now amount) }
{
    let o = opened(width, count, bits, l);
    Answer::from(weights::post_in(o, list, key, amount))
}

// ---- Steps over lent offsets
// From any cursor: 15 for what is no state, then as the cursor's step says.
pub fn loes_unchecked_advance(
    width: usize,
    count: usize,
    bits: usize,
    l: &[u8],
    state: usize,
    offsets: &mut [usize],
    out: &mut [u8],
) -> StateAnswer
    requires { Tells width count bits l.now }
    ensures { step_gives result.answer result.state offsets.new out.new ≡ step_call l.now state offsets.old out.old }
{
    let o = opened(width, count, bits, l);
    match state_of(state) {
        Some(from) => StateAnswer::from(cursor::step_any(o, from, offsets, out)),
        None => StateAnswer {
            answer: Answer::refused(Refusal::BadCursor),
            state,
        },
    }
}

// The same for a cursor that is right, as a step that was not refused 15 leaves it: 15 is not tested.
pub fn loes_unchecked_next(
    width: usize,
    count: usize,
    bits: usize,
    l: &[u8],
    state: usize,
    offsets: &mut [usize],
    out: &mut [u8],
) -> StateAnswer
    requires { Tells width count bits l.now × (is_state state ≡ true) × (is_cursor_of (entry_in l.now) (cursor_in state offsets.old) ≡ true) }
    ensures { step_gives result.answer result.state offsets.new out.new ≡ step_call l.now state offsets.old out.old }
{
    let o = opened(width, count, bits, l);
    let from = state_of(state).unwrap();
    StateAnswer::from(cursor::step_right(o, from, offsets, out))
}

// That step, and if it wrote a key, as many more as the buffer has room for.
pub fn loes_unchecked_walk(
    width: usize,
    count: usize,
    bits: usize,
    l: &[u8],
    state: usize,
    offsets: &mut [usize],
    out: &mut [u8],
) -> StateAnswer
    requires { Tells width count bits l.now × (is_state state ≡ true) × (is_cursor_of (entry_in l.now) (cursor_in state offsets.old) ≡ true) }
    ensures { step_gives result.answer result.state offsets.new out.new ≡ walk_call l.now state offsets.old out.old }
{
    let o = opened(width, count, bits, l);
    let from = state_of(state).unwrap();
    StateAnswer::from(cursor::walk_right(o, from, offsets, out))
}
