// Runs a script of calls by the compiled library: copies each line, and writes what its call answers in a line below.
#![tactic(auto)]

ghost use Rattle.std.specs.Prelude.{◌<◌, ◌≤◌, ◌≡◌, length, IfSome};

use bits::{EdgeOffset, MemberIndex};
use capi::{Answer, Cursor};
use encoding::Encoding;
use std::io;

// An answer that is there.
const FOUND: u32 = 1;

// The size of the longest output buffer, and what fills it before a call.
const ROOM: usize = 2048;

const FILL: u8 = 0x77;

// The most bytes that a word of a line is read as.
const WORD_BYTES: usize = 4096;

// The most bytes of a script that are run.
const SCRIPT_BYTES: usize = 65_536;

// As many bytes of a buffer are shown.
const SHOWN: usize = 64;

// As many numbers of a cursor are shown: its state and its first offsets.
const CURSOR_SHOWN: usize = 5;

// A number that has grown to this takes no further digit.
const LARGE: usize = 1_000_000;

const LINE_FEED: u8 = b'\n';

const SPACE: u8 = b' ';

const COMMENT: u8 = b'#';

// ---- Digits
// The value of a digit, if it is one.
fn value(digit: u8) -> Option<u8>
    ensures { IfSome result (λ v. v < 16) }
{
    match digit {
        b'0'..=b'9' => Some(digit - b'0'),
        b'A'..=b'F' => Some(digit - b'A' + 10),
        _ => None,
    }
}

// Whether a text is digits of a base, one at least.
fn is_digits(text: &[u8], base: u8) -> bool {
    !text.is_empty()
        && text
            .iter()
            .all(|digit| matches!(value(*digit), Some(v) if v < base))
}

// Whether a word is a number.
fn is_number(text: &[u8]) -> bool {
    is_digits(text, 10)
}

// Whether a word is bytes: pairs of digits, or - for none.
fn is_bytes(text: &[u8]) -> bool {
    text == b"-".as_slice() || text.len() % 2 == 0 && is_digits(text, 16)
}

// The number that a text is in decimal.
fn number(text: &[u8]) -> usize {
    let mut n: usize = 0;
    for digit in text {
        if n < LARGE {
            n = 10 * n + usize::from(value(*digit).unwrap_or(0));
        }
    }
    n
}

// The byte of two hexadecimal digits.
fn byte(high: u8, low: u8) -> u8 {
    16 * value(high).unwrap_or(0) + value(low).unwrap_or(0)
}

// The bytes that a text is in hexadecimal, put into a buffer as far as they fit.
fn bytes_of<'a>(text: &[u8], room: &'a mut [u8]) -> &'a mut [u8] {
    let (pairs, _) = text.as_chunks::<2>();
    for (place, [high, low]) in room.iter_mut().zip(pairs) {
        *place = byte(*high, *low);
    }
    front(room, pairs.len())
}

// The front of a buffer.
fn front(room: &mut [u8], n: usize) -> &mut [u8] {
    let k = n.min(room.len());
    &mut room[..k]
}

// ---- Calls
// What a line calls.
#[derive(Clone, Copy)]
enum Call {
    Open,
    Rank,
    Contains,
    IndexOf,
    LowerBound,
    KeyAt,
    Pack,
    Union,
    Difference,
    Advance,
}

// Word k of a line; empty if there is none.
fn word(line: &[u8], k: usize) -> &[u8] {
    line.split(|b| *b == SPACE).nth(k).unwrap_or(b"")
}

impl Call {
    // The call that a word names.
    fn named(name: &[u8]) -> Option<Call> {
        match name {
            b"open" => Some(Call::Open),
            b"rank" => Some(Call::Rank),
            b"contains" => Some(Call::Contains),
            b"index_of" => Some(Call::IndexOf),
            b"lower_bound" => Some(Call::LowerBound),
            b"key_at" => Some(Call::KeyAt),
            b"pack" => Some(Call::Pack),
            b"union" => Some(Call::Union),
            b"difference" => Some(Call::Difference),
            b"advance" => Some(Call::Advance),
            _ => None,
        }
    }

    // Whether the words behind its name are what it takes: bytes first, and the size of its buffer last, if it has one.
    fn takes(self, line: &[u8]) -> bool {
        let second = word(line, 2);
        let third = word(line, 3);
        let fits = match self {
            Call::Open => second.is_empty() && third.is_empty(),
            Call::Rank => is_number(second) && third.is_empty(),
            Call::Contains | Call::IndexOf | Call::LowerBound => {
                is_bytes(second) && third.is_empty()
            }
            Call::KeyAt | Call::Pack => is_number(second) && is_number(third),
            Call::Union | Call::Difference | Call::Advance => is_bytes(second) && is_number(third),
        };
        fits && is_bytes(word(line, 1)) && word(line, 4).is_empty()
    }

    // The call that a line has the form of.
    fn of(line: &[u8]) -> Option<Call> {
        let call = Call::named(word(line, 0))?;
        if call.takes(line) { Some(call) } else { None }
    }
}

// ---- Answers, each part behind a space
fn put(rt: &impl Print, text: &[u8]) -> io::Result<()> {
    rt.write_all(text)
}

fn put_number(rt: &impl Print, n: usize) -> io::Result<()> {
    print!(rt; " {n}")
}

fn put_bytes(rt: &impl Print, s: &[u8]) -> io::Result<()> {
    let mut text = [SPACE; 2 * SHOWN + 1];
    let k = s.len().min(SHOWN);
    let n = printing::put_key(&mut text, 1, &s[..k]);
    if n > 1 {
        put(rt, &text[..n])?;
    }
    Ok(())
}

// A number, absent, or a refusal.
fn put_answer(rt: &impl Print, a: Answer) -> io::Result<()> {
    if a.refusal > 0 {
        put(rt, b" refused")?;
        return put_number(rt, a.refusal as usize);
    }
    if a.found == 0 {
        return put(rt, b" absent");
    }
    put_number(rt, a.value)
}

// ---- Calls
// The width and the count are put, the edges are the answer.
fn open(rt: &impl Print, l: &[u8]) -> io::Result<Answer> {
    let o = capi::loes_open(l);
    if o.refusal == 0 {
        put_number(rt, o.width as usize)?;
        put_number(rt, o.count)?;
    }
    Ok(Answer {
        refusal: o.refusal,
        found: FOUND,
        value: o.bits,
    })
}

// A cursor from the bytes of its first numbers; the others are 0.
fn cursor_of(bytes: &[u8]) -> Cursor {
    let mut numbers = bytes
        .iter()
        .take(Encoding::MAX_WIDTH)
        .map(|byte| usize::from(*byte));
    let state = numbers.next().unwrap_or(0);
    let mut offsets = [EdgeOffset(0); Encoding::MAX_WIDTH];
    for (offset, number) in offsets.iter_mut().zip(numbers) {
        *offset = EdgeOffset(number);
    }
    Cursor { state, offsets }
}

// The bytes of a cursor's first numbers.
fn bytes_in(cursor: Cursor) -> [u8; CURSOR_SHOWN]
    ensures { 5 ≡ length result }
{
    let mut bytes = [(cursor.state % 256) as u8; CURSOR_SHOWN];
    for (byte, offset) in bytes[1..].iter_mut().zip(cursor.offsets.iter()) {
        *byte = (offset.0 % 256) as u8;
    }
    bytes
}

// The cursor after the step is put, the bytes written are the answer; a step to after has none.
fn advance(rt: &impl Print, l: &[u8], from: &[u8], out: &mut [u8]) -> io::Result<Answer> {
    let stepped = capi::advanced(l, cursor_of(from), out);
    put_bytes(rt, &bytes_in(stepped.cursor))?;
    Ok(stepped.answer)
}

// What a call answers: its second word is bytes or a number.
fn answer(
    rt: &impl Print,
    call: Call,
    set: &[u8],
    other: &[u8],
    number: usize,
    out: &mut [u8],
) -> io::Result<Answer> {
    match call {
        Call::Open => open(rt, set),
        Call::Rank => Ok(capi::loes_rank(set, EdgeOffset(number))),
        Call::Contains => Ok(capi::loes_contains(set, other)),
        Call::IndexOf => Ok(capi::loes_index_of(set, other)),
        Call::LowerBound => Ok(capi::loes_lower_bound(set, other)),
        Call::KeyAt => Ok(capi::loes_key_at(set, MemberIndex(number), out)),
        Call::Pack => Ok(capi::loes_pack(number, set, out)),
        Call::Union => Ok(capi::loes_union(set, other, out)),
        Call::Difference => Ok(capi::loes_difference(set, other, out)),
        Call::Advance => advance(rt, set, other, out),
    }
}

// ---- Lines
// Runs a line's call, and puts what it answers.
fn run_call(rt: &impl Print, call: Call, line: &[u8]) -> io::Result<()> {
    let mut first = [0u8; WORD_BYTES];
    let mut second = [0u8; WORD_BYTES];
    let mut room = [FILL; ROOM];
    let set = bytes_of(word(line, 1), &mut first);
    let other = bytes_of(word(line, 2), &mut second);
    let out = front(&mut room, number(word(line, 3)));
    put(rt, b"=")?;
    let a = answer(rt, call, set, other, number(word(line, 2)), out)?;
    put_answer(rt, a)?;
    put_bytes(rt, out)?;
    put(rt, b"\n")
}

// An empty line counts as a comment.
fn run_line(rt: &impl Print, line: &[u8]) -> io::Result<()> {
    put(rt, line)?;
    put(rt, b"\n")?;
    if matches!(line, [] | [COMMENT, ..]) {
        return Ok(());
    }
    match Call::of(line) {
        Some(call) => run_call(rt, call, line),
        None => put(rt, b"bad line\n"),
    }
}

// A line feed ends a line, also the last, which may have none.
fn run(rt: &impl Print, script: &[u8]) -> io::Result<()> {
    for line in script.split_inclusive(|b| *b == LINE_FEED) {
        run_line(rt, line.strip_suffix(b"\n").unwrap_or(line))?;
    }
    Ok(())
}

fn main(rt: HostRuntime) -> io::Result<()> {
    let mut script = [0u8; SCRIPT_BYTES];
    let n = printing::read_full(&mut rt.reader(), &mut script)?;
    run(&rt, &script[..n])
}
