// Prints an encoding: a line of its numbers, then a line for each member, its index and its key's bytes.
#![tactic(auto)]

ghost use Rattle.std.specs.Prelude.{◌+◌, ◌-◌, ◌<◌, ◌≤◌, ◌≡◌, [], ◌∷◌, length, IfOk};
ghost use Rattle.loes.specs.Entry.{count};
ghost use Rattle.loes.specs.Read.{rejected, read, entry_in};
ghost use Rattle.loes.specs.Numbers.{number_of};
ghost use Rattle.printing.specs.Text.{decimal, named, hex_digit, hex, numbers_line, member_line, refused_line, first_line, lines_from, max_line, Puts};

pub mod page;

use bits::MemberIndex;
use encoding::Encoding;
use encoding::opening::Opened;
use itoa::Buffer;
use loes::Refusal;
use page::Page;
use std::io;
use std::io::Read;

// Room for any line: an index of 20 digits, a space, a key of 32 bytes and a line feed are 86 bytes, and the first line is no longer.
const LINE: usize = 96;

// The bytes of text that are written at once.
const PAGE: usize = 4096;

// The most bytes that are taken of standard input.
const MOST_INPUT: usize = 65_536;

const LINE_FEED: u8 = b'\n';

const SPACE: u8 = b' ';

// ---- Text put into a buffer at a place, where it has room; each returns where it ends
// A buffer and a place, and no text that grows: `Puts`, on which `PagesAreLines` stands, says of each byte of the buffer what it is.
fn put(text: &mut [u8], at: usize, b: u8) -> usize
    requires { at < length text.old }
    ensures { Puts at (b ∷ []) text.old result text.new }
{
    text[at] = b;
    at + 1
}

fn put_text(text: &mut [u8], at: usize, s: &[u8]) -> usize
    requires { at + length s.now ≤ length text.old }
    ensures { Puts at s.now text.old result text.new }
{
    let end = at + s.len();
    text[at..end].copy_from_slice(s);
    end
}

fn put_number(text: &mut [u8], at: usize, n: usize) -> usize
    requires { at + length (decimal n) ≤ length text.old }
    ensures { Puts at (decimal n) text.old result text.new }
{
    let mut digits = Buffer::new();
    put_text(text, at, digits.format(n).as_bytes())
}

// A digit in upper-case hexadecimal.
fn glyph(d: u8) -> u8
    requires { d < 16 }
    ensures { result ≡ hex_digit d }
{
    if d < 10 { b'0' + d } else { b'A' + (d - 10) }
}

// The two digits of a byte.
fn put_byte(text: &mut [u8], at: usize, b: u8) -> usize
    requires { at + 2 ≤ length text.old }
    ensures { Puts at (hex (b ∷ [])) text.old result text.new }
{
    let end = put(text, at, glyph(b / 16));
    put(text, end, glyph(b % 16))
}

// A key's bytes in upper-case hexadecimal.
pub fn put_key(text: &mut [u8], at: usize, key: &[u8]) -> usize
    requires { at + length (hex key.now) ≤ length text.old }
    ensures { Puts at (hex key.now) text.old result text.new }
{
    let mut end = at;
    for byte in key {
        end = put_byte(text, end, *byte);
    }
    end
}

// ---- Lines
// A word and a number.
#[tactic(auto, using(crate::proofs::Lines::length_named))]
fn put_named(text: &mut [u8], at: usize, word: &[u8], n: usize) -> usize
    requires { at + length (named word.now n) ≤ length text.old }
    ensures { Puts at (named word.now n) text.old result text.new }
{
    let end = put_text(text, at, word);
    put_number(text, end, n)
}

// The numbers of an encoding: width, members and edge bits, in the words that document 01 prints.
#[tactic(auto, using(crate::proofs::Lines::length_numbers))]
fn put_numbers(text: &mut [u8], at: usize, e: Encoding) -> usize
    requires { at + length (numbers_line e.width e.count e.bits) ≤ length text.old }
    ensures { Puts at (numbers_line e.width e.count e.bits) text.old result text.new }
{
    let end = put_named(text, at, b"width ", e.width);
    let end = put_named(text, end, b" tickets ", e.count);
    let end = put_named(text, end, b" edges ", e.bits);
    put(text, end, LINE_FEED)
}

// A member: its index and its key.
#[tactic(auto, using(crate::proofs::Lines::length_member))]
fn put_member(text: &mut [u8], at: usize, index: MemberIndex, key: &[u8]) -> usize
    requires { at + length (member_line index.0 key.now) ≤ length text.old }
    ensures { Puts at (member_line index.0 key.now) text.old result text.new }
{
    let end = put_number(text, at, index.0);
    let end = put(text, end, SPACE);
    let end = put_key(text, end, key);
    put(text, end, LINE_FEED)
}

// A refusal: its number.
fn put_refused(text: &mut [u8], at: usize, refusal: Refusal) -> usize
    requires { at + length (refused_line (number_of refusal)) ≤ length text.old }
    ensures { Puts at (refused_line (number_of refusal)) text.old result text.new }
{
    let end = put_named(text, at, b"refused ", usize::from(refusal.number()));
    put(text, end, LINE_FEED)
}

// ---- Writing: each is lent its text of the input and nothing else; no contract speaks of what leaves the process
fn write_numbers(rt: &impl Print, l: &[u8], text: &[u8]) -> io::Result<()>
    requires { text.now ≡ first_line (entry_in l.now) }
{
    rt.write_all(text)
}

// The lines of the members from one index up to another.
fn write_members(
    rt: &impl Print,
    l: &[u8],
    from: MemberIndex,
    to: MemberIndex,
    text: &[u8],
) -> io::Result<()>
    requires { (from.0 < to.0) × (to.0 ≤ count (entry_in l.now)) × (text.now ≡ lines_from (entry_in l.now) from.0 (to.0 - from.0)) }
{
    rt.write_all(text)
}

fn write_refused(rt: &impl Print, l: &[u8], refusal: Refusal, text: &[u8]) -> io::Result<()>
    requires { (read l.now ≡ rejected (number_of refusal)) × (text.now ≡ refused_line (number_of refusal)) }
{
    rt.write_all(text)
}

fn print_numbers(rt: &impl Print, o: Opened<'_>) -> io::Result<()> {
    let mut text = [0u8; LINE];
    let n = put_numbers(&mut text, 0, o.encoding);
    write_numbers(rt, o.bytes, &text[..n])
}

// Prints a page of lines, and returns one that goes on from it; where it can't, it leaves nothing behind.
fn print_page<'a>(rt: &impl Print, from: Page<'a>) -> io::Result<Page<'a>>
    requires { (from.length ≡ 0) × (from.index.0 < from.opened.encoding.count) }
    ensures { IfOk result (λ next. (next.opened ≡ from.entry.opened) × (next.length ≡ 0) × (from.entry.index.0 < next.index.0)) }
{
    let mut text = [0u8; PAGE];
    let mut page = from;
    page.fill(&mut text);
    write_members(
        rt,
        page.opened.bytes,
        from.index,
        page.index,
        &text[..page.length],
    )?;
    page.length = 0;
    Ok(page)
}

// Prints the lines of the members, page by page, and returns the index that it came to. No `for`: how many go to a page is the page's to say.
fn print_members(rt: &impl Print, o: Opened<'_>) -> io::Result<MemberIndex>
    ensures { IfOk result (λ to. to.0 ≡ count (entry_in o.entry.bytes.now)) }
{
    let mut page = Page::first(o);
    while page.index.0 < o.encoding.count {
        page = print_page(rt, page)?;
    }
    Ok(page.index)
}

fn print_refused(rt: &impl Print, l: &[u8], refusal: Refusal) -> io::Result<()>
    requires { read l.now ≡ rejected (number_of refusal) }
{
    let mut text = [0u8; LINE];
    let n = put_refused(&mut text, 0, refusal);
    write_refused(rt, l, refusal, &text[..n])
}

// Prints the encoding that bytes are, or their refusal.
fn print(rt: &impl Print, l: &[u8]) -> io::Result<()> {
    match encoding::open(l) {
        Err(refusal) => print_refused(rt, l, refusal),
        Ok(o) => {
            print_numbers(rt, o)?;
            print_members(rt, o)?;
            Ok(())
        }
    }
}

// ---- Reading
// Reads until a buffer is full or the input ends, and returns how many bytes it put at the front. How far a read comes is the reader's to say: no `for` has that step.
pub fn read_full(reader: &mut impl Read, buf: &mut [u8]) -> io::Result<usize>
    ensures { IfOk result (λ n. n ≤ length buf.new) }
{
    let mut done: usize = 0;
    while done < buf.len() {
        let n = reader.read(&mut buf[done..])?;
        if n == 0 {
            break;
        }
        done += n;
    }
    Ok(done)
}

// Prints what standard input holds, if it is no longer than 65,536 bytes.
pub fn print_input(rt: &(impl Input + Print)) -> io::Result<()> {
    let mut input = [0u8; MOST_INPUT];
    let mut reader = rt.reader();
    let n = read_full(&mut reader, &mut input)?;
    let mut more = [0u8; 1];
    if read_full(&mut reader, &mut more)? > 0 {
        return rt.write_all(b"input too long\n");
    }
    print(rt, &input[..n])
}
