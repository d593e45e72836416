// A cursor over an encoding's members, and the step that moves it on.
#![tactic(auto)]

ghost use Rattle.std.specs.Prelude.{ℕ, ◌+◌, ◌-◌, ◌*◌, ◌/◌, ◌<◌, ◌≤◌, ◌≡◌, true, false, [], length, get_or, drop, replicate, MatchOption};
ghost use Rattle.loes.specs.Limits.{max_width};
ghost use Rattle.loes.specs.Bytes.{front};
ghost use Rattle.loes.specs.Entry.{keys_of, edges_of};
ghost use Rattle.loes.specs.Read.{entry_in};
ghost use Rattle.loes.specs.Cursor as spec;
ghost use Rattle.loes.specs.Cursor.{cursor_with, has_path};
ghost use Rattle.cursor.specs.Moves.{leads_on, record_code, turns, first_edge, behind, TurnsAt, Moved, Movable};
ghost use Rattle.cursor.specs.Steps.{state_of, numbers, cursor_of, step_answer, walked_of, advanced_of, stepped_of};
ghost use Rattle.cursor.specs.Filling.{bytes_in, goes_on, advances};

use bits::{EdgeOffset, RecordIndex};
use encoding::Encoding;
use encoding::opening::Opened;
use loes::Refusal;

// Where a cursor stands.
#[derive(Clone, Copy)]
pub enum State {
    Before,
    At,
    After,
}

// Before, after or at a member, with one edge offset for each level; unused offsets are 0 (document 01: a walk's place).
#[derive(Clone, Copy)]
pub struct Cursor {
    pub state: State,
    pub offsets: [EdgeOffset; Encoding::MAX_WIDTH],
}

impl Cursor {
    // Before the first member.
    pub fn before() -> Cursor
        ensures { cursor_of result ≡ cursor_with spec.before (replicate max_width 0) }
    {
        Cursor::of(State::Before, [EdgeOffset(0); Encoding::MAX_WIDTH])
    }

    // In a state, with a path's offsets.
    pub fn of(state: State, offsets: [EdgeOffset; Encoding::MAX_WIDTH]) -> Cursor
        ensures { cursor_of result ≡ cursor_with (state_of state) (numbers offsets) }
    {
        Cursor { state, offsets }
    }
}

// A cursor's offsets as numbers. The array's own `map` was tried here and below: it takes ten times as long.
fn numbers_of(c: Cursor) -> [usize; Encoding::MAX_WIDTH]
    ensures { result ≡ numbers c.offsets }
{
    let mut path = [0usize; Encoding::MAX_WIDTH];
    for (d, offset) in c.offsets.iter().enumerate() {
        path[d] = offset.0;
    }
    path
}

// Numbers as a cursor's offsets.
fn offsets_of(path: [usize; Encoding::MAX_WIDTH]) -> [EdgeOffset; Encoding::MAX_WIDTH]
    ensures { numbers result ≡ path }
{
    let mut offsets = [EdgeOffset(0); Encoding::MAX_WIDTH];
    for (d, offset) in path.iter().enumerate() {
        offsets[d] = EdgeOffset(*offset);
    }
    offsets
}

// A step by value: the cursor that it leaves, and the bytes of the key that it wrote, 0 if it went to after.
#[derive(Clone, Copy)]
pub struct Stepped {
    pub cursor: Cursor,
    pub answer: Result<usize, Refusal>,
}

// A step over lent offsets: the same bytes, and the state that it leaves.
#[derive(Clone, Copy)]
pub struct Walked {
    pub answer: Result<usize, Refusal>,
    pub state: State,
}

// ---- Refusal 15: is the cursor one of this encoding?
// Whether an offset is one of a record's two, and set.
fn leads_on(o: Opened<'_>, r: RecordIndex, at: EdgeOffset) -> bool
    ensures { result ≡ leads_on (edges_of (entry_in o.entry.bytes.now)) r.0 at.0 }
{
    at.0 / 2 == r.0 && at.0 < o.encoding.bits && o.edge_at(at)
}

// Whether offsets begin with a member's path: level by level, each leads on.
fn is_path(o: Opened<'_>, path: &[usize]) -> bool
    requires { o.encoding.width ≤ length path.now }
    ensures { result ≡ has_path (entry_in o.entry.bytes.now) path.now }
{
    let mut record: usize = 0;
    for offset in &path[..o.encoding.width] {
        if !leads_on(o, RecordIndex(record), EdgeOffset(*offset)) {
            return false;
        }
        record = o.ones_before(EdgeOffset(*offset)) + 1;
    }
    true
}

// Whether offsets are all 0, with no branch by one of them.
fn are_zeros(offsets: &[usize]) -> bool
    ensures { result ≡ spec.all_zero offsets.now }
{
    let mut set: usize = 0;
    for offset in offsets {
        set |= *offset;
    }
    set == 0
}

// Whether offsets are a member's path with zeros behind it.
fn at_member(o: Opened<'_>, path: &[usize]) -> bool
    requires { o.encoding.width ≤ length path.now }
    ensures { result ≡ spec.offsets_right (entry_in o.entry.bytes.now) (cursor_with spec.at path.now) }
{
    is_path(o, path) && are_zeros(&path[o.encoding.width..])
}

// Whether a state and offsets are a cursor of this encoding: 256 of them, a member's path or zeros alone.
fn is_cursor(o: Opened<'_>, state: State, path: &[usize]) -> bool
    ensures { result ≡ spec.is_cursor_of (entry_in o.entry.bytes.now) (cursor_with (state_of state) path.now) }
{
    if path.len() != Encoding::MAX_WIDTH {
        return false;
    }
    match state {
        State::At => at_member(o, path),
        State::Before | State::After => are_zeros(path),
    }
}

// ---- The next path
// The two edges of a record as a number: 2 for the first, 1 for the second.
fn record_at(o: Opened<'_>, r: RecordIndex) -> usize
    requires { 2 * r.0 < o.encoding.bits }
    ensures { result ≡ record_code (edges_of (entry_in o.entry.bytes.now)) r.0 }
{
    records::record_in(o.bytes[o.encoding.edges + r.0 / 4], r.0 % 4) as usize
}

// Whether the next set bit is in the same record, from a set bit: the record has both edges, and this is the first. No branch goes by the edges.
fn turns_on(o: Opened<'_>, at: EdgeOffset) -> bool
    requires { get_or (edges_of (entry_in o.bytes.now)) at.0 false ≡ true }
    ensures { result ≡ turns (edges_of (entry_in o.entry.bytes.now)) at.0 }
{
    let record = record_at(o, RecordIndex(at.0 / 2));
    record + 4 * (at.0 % 2) == 3
}

// The greatest level on which a path turns, if it turns on one.
fn turn_level(o: Opened<'_>, path: &[usize]) -> Option<usize>
    requires { (o.encoding.width ≤ length path.now) × ((j : ℕ) → j < o.encoding.width → get_or (edges_of (entry_in o.bytes.now)) (get_or path.now j 0) false ≡ true) }
    ensures { MatchOption result (TurnsAt (edges_of (entry_in o.entry.bytes.now)) o.entry.encoding.width path.now 0) (λ (level : ℕ). TurnsAt (edges_of (entry_in o.entry.bytes.now)) o.entry.encoding.width path.now (level + 1)) }
{
    for d in (0..o.encoding.width).rev() {
        if turns_on(o, EdgeOffset(path[d])) {
            return Some(d);
        }
    }
    None
}

// The first set bit of a record.
fn first_edge(o: Opened<'_>, r: RecordIndex) -> EdgeOffset
    requires { 2 * r.0 < o.encoding.bits }
    ensures { result.0 ≡ first_edge (edges_of (entry_in o.entry.bytes.now)) r.0 }
{
    let record = record_at(o, r);
    EdgeOffset(2 * r.0 + (1 - record / 2))
}

// The offset behind another on level d of a path that turns on some level: there the next one, on greater levels the first of the next record.
fn next_offset(o: Opened<'_>, level: usize, d: usize, at: EdgeOffset) -> EdgeOffset
    requires { (d ≡ level → at.0 < o.encoding.bits) × ((d ≡ level → ⊥) → 2 * (at.0 / 2 + 1) < o.encoding.bits) }
    ensures { result.0 ≡ behind (edges_of (entry_in o.entry.bytes.now)) level d at.0 }
{
    if d == level {
        return EdgeOffset(at.0 + 1);
    }
    first_edge(o, RecordIndex(at.0 / 2 + 1))
}

// Moves a path on from the level on which it turns.
fn move_on(o: Opened<'_>, level: usize, path: &mut [usize])
    requires { Movable o.encoding.bits o.encoding.width level path.old }
    ensures { Moved (edges_of (entry_in o.entry.bytes.now)) o.entry.encoding.width level path.old path.new }
{
    for d in level..o.encoding.width {
        let next = next_offset(o, level, d, EdgeOffset(path[d]));
        path[d] = next.0;
    }
}

// The path of the first member: on each level it comes to the first record.
fn first_path(o: Opened<'_>, path: &mut [usize])
    requires { (0 < o.encoding.bits) × (o.encoding.width ≤ length path.old) }
    ensures { path.new ≡ front (spec.path_of (entry_in o.entry.bytes.now) (get_or (keys_of (entry_in o.entry.bytes.now)) 0 [])) path.old }
{
    let mut record: usize = 0;
    for d in 0..o.encoding.width {
        path[d] = first_edge(o, RecordIndex(record)).0;
        record = o.level_end(d).0 / 2;
    }
}

// ---- The step, behind the check, over lent offsets
// A path is lent as numbers, and its state beside it by value, as C lends them: one struct of both, with a ghost field that they are a cursor, went through memory, 7 to 11 ns of a step.
// What a step to after leaves: it writes nothing.
const TO_AFTER: Walked = Walked {
    answer: Ok(0),
    state: State::After,
};

// From a member's path: the turn is found first, and nothing moves before the buffer is known to fit.
// It stands in the loop of a walk when compiled: called there, it would have what is opened copied to be lent for each key, and a key take a third longer.
#[inline(always)]
fn step_at(o: Opened<'_>, path: &mut [usize], out: &mut [u8]) -> Walked
    requires { spec.is_cursor_of (entry_in o.bytes.now) (cursor_with spec.at path.old) ≡ true }
    ensures { walked_of result path.new out.new ≡ spec.advance (entry_in o.entry.bytes.now) (cursor_with spec.at path.old) out.old }
{
    let Some(level) = turn_level(o, path) else {
        path.fill(0);
        return TO_AFTER;
    };
    if out.len() < bits::bytes_for(o.encoding.width) {
        return Walked {
            answer: Err(Refusal::ShortBuffer),
            state: State::At,
        };
    }
    move_on(o, level, path);
    Walked {
        answer: Ok(query::write_key(path, o.encoding.width, out)),
        state: State::At,
    }
}

// From before the first member.
fn step_before(o: Opened<'_>, path: &mut [usize], out: &mut [u8]) -> Walked
    requires { path.old ≡ replicate max_width 0 }
    ensures { walked_of result path.new out.new ≡ spec.advance (entry_in o.entry.bytes.now) (cursor_with spec.before path.old) out.old }
{
    if o.encoding.bits == 0 {
        return TO_AFTER;
    }
    if out.len() < bits::bytes_for(o.encoding.width) {
        return Walked {
            answer: Err(Refusal::ShortBuffer),
            state: State::Before,
        };
    }
    first_path(o, path);
    Walked {
        answer: Ok(query::write_key(path, o.encoding.width, out)),
        state: State::At,
    }
}

// From a right cursor, as a step that was not refused 15 leaves it: only 14 is tested.
// It stands in its callers' place when compiled, for the same reason.
#[inline(always)]
pub fn step_right(o: Opened<'_>, state: State, path: &mut [usize], out: &mut [u8]) -> Walked
    requires { spec.is_cursor_of (entry_in o.bytes.now) (cursor_with (state_of state) path.old) ≡ true }
    ensures { walked_of result path.new out.new ≡ spec.advance (entry_in o.entry.bytes.now) (cursor_with (state_of state) path.old) out.old }
{
    match state {
        State::At => step_at(o, path, out),
        State::Before => step_before(o, path, out),
        State::After => TO_AFTER,
    }
}

// ---- A walk in one call, behind the check
// Goes on from a member's path while the buffer has room for a key behind byte `from`, each key behind the one before.
// A `for` over pieces of a key's size is no plainer: the bytes are counted all the same, since they are the answer.
fn steps_on(o: Opened<'_>, path: &mut [usize], from: usize, out: &mut [u8]) -> Walked
    requires { (spec.is_cursor_of (entry_in o.bytes.now) (cursor_with spec.at path.old) ≡ true) × (from ≤ length out.old) }
    ensures { walked_of result path.new out.new ≡ goes_on (length out.old) (entry_in o.entry.bytes.now) from out.old (cursor_with spec.at path.old) }
{
    let size = bits::bytes_for(o.encoding.width);
    let mut at = from;
    while size <= out.len() - at {
        let walked = step_right(o, State::At, path, &mut out[at..]);
        let n = walked.answer.unwrap_or(0);
        if n == 0 {
            return Walked {
                answer: Ok(at),
                state: State::After,
            };
        }
        at += n;
    }
    Walked {
        answer: Ok(at),
        state: State::At,
    }
}

// From a right cursor: a step, and if it wrote a key, as many more as the buffer has room for.
pub fn walk_right(o: Opened<'_>, state: State, path: &mut [usize], out: &mut [u8]) -> Walked
    requires { spec.is_cursor_of (entry_in o.bytes.now) (cursor_with (state_of state) path.old) ≡ true }
    ensures { walked_of result path.new out.new ≡ advances (entry_in o.entry.bytes.now) (cursor_with (state_of state) path.old) out.old }
{
    let walked = step_right(o, state, path, out);
    let n = walked.answer.unwrap_or(0);
    if n == 0 {
        return walked;
    }
    steps_on(o, path, n, out)
}

// From any cursor: 15, then 14 unless it goes to after.
pub fn step_any(o: Opened<'_>, state: State, path: &mut [usize], out: &mut [u8]) -> Walked
    ensures { walked_of result path.new out.new ≡ spec.advance (entry_in o.entry.bytes.now) (cursor_with (state_of state) path.old) out.old }
{
    if is_cursor(o, state, path) {
        return step_right(o, state, path, out);
    }
    Walked {
        answer: Err(Refusal::BadCursor),
        state,
    }
}

// The step by value.
pub fn advanced(o: Opened<'_>, c: Cursor, out: &mut [u8]) -> Stepped
    ensures { stepped_of result out.new ≡ spec.advance (entry_in o.entry.bytes.now) (cursor_of c) out.old }
{
    let mut path = numbers_of(c);
    let walked = step_any(o, c.state, &mut path, out);
    Stepped {
        cursor: Cursor::of(walked.state, offsets_of(path)),
        answer: walked.answer,
    }
}

// The same of a cursor that is lent to the step, for a caller who opened once (document 01: the place is lent to the step).
pub fn advance(o: Opened<'_>, cursor: &mut Cursor, out: &mut [u8]) -> Result<usize, Refusal>
    ensures { advanced_of result out.new cursor.new ≡ spec.advance (entry_in o.entry.bytes.now) (cursor_of cursor.old) out.old }
{
    let stepped = advanced(o, *cursor, out);
    *cursor = stepped.cursor;
    stepped.answer
}
