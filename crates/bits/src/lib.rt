// Bytes and bits: the three counts, bits, numbers and words in bytes, and the constant tables.
#![tactic(auto)]

ghost use Rattle.std.specs.Prelude.{◌+◌, ◌-◌, ◌*◌, ◌/◌, ◌^◌, ◌<◌, ◌≤◌, ◌≡◌, length, drop};
ghost use Rattle.loes.specs.Limits.{max_width, max_edges, sub_block_bits, sub_block_size};
ghost use Rattle.loes.specs.Bytes.{started, bit_at, bits_in, number_at};
ghost use Rattle.loes.specs.Edges.{ones};
ghost use Rattle.loes.specs.Entry.{key_bytes};
ghost use Rattle.loes.specs.Model.{unused_set};
ghost use Rattle.bits.specs.Tables.{bits8, place_of};
ghost use Rattle.bits.specs.Words.{word_in};

pub mod tables;

use tables::{PLACES, TALLIES};

// Three separate counts: a call that wants one does not take another.
// An offset in the edge sequence.
#[repr(C)]
#[derive(Clone, Copy)]
pub struct EdgeOffset(pub usize);
// The number of a record in a sequence of records.
#[derive(Clone, Copy)]
pub struct RecordIndex(pub usize);
// A key's index among the members in order (document 01: lot).
#[repr(C)]
#[derive(Clone, Copy)]
pub struct MemberIndex(pub usize);

// How many parts of a size are started by n: n / size, rounded up.
pub fn started_by(n: usize, size: usize) -> usize
    requires { (n ≤ max_edges) × (0 < size) × (size ≤ max_edges) }
    ensures { (result ≡ started size n) × (result < n + size) }
{
    (n + (size - 1)) / size
}

// The bytes that n bits take.
pub fn bytes_for(n: usize) -> usize
    requires { n ≤ max_edges }
    ensures { (result ≡ started 8 n) × (8 * result < n + 8) }
{
    started_by(n, 8)
}

// Bit o of bytes, offset 0 in the most significant bit of the first byte.
pub fn bit_at(l: &[u8], o: usize) -> bool
    requires { o / 8 < length l.now }
    ensures { result ≡ bit_at l.now o }
{
    let at = o / 8;
    let x = l[at];
    (x >> (7 - o % 8)) % 2 == 1
}

// Whether a bit behind the m bits of a key of t bytes is set: those bits are the low ones of its last byte.
pub fn unused_set(key: &[u8], t: usize, m: usize) -> bool
    requires { ((0 < m) × (m ≤ max_width)) × ((t ≡ key_bytes m) × (t ≤ length key.now)) }
    ensures { result ≡ unused_set m key.now }
{
    let x = key[t - 1];
    x % (1u8 << (8 * t - m)) != 0
}

// What a byte weighs that has one behind it.
pub const BYTE: usize = 256;

// The number in K bytes at a place, most significant byte first: behind zeros they are eight, which is one load when compiled.
pub fn number<const K: usize>(l: &[u8], at: usize) -> usize
    requires { (K ≤ 8) × (at + K ≤ length l.now) }
    ensures { (result ≡ number_at K l.now at) × (result < 256 ^ K) }
{
    let mut eight = [0u8; 8];
    eight[8 - K..].copy_from_slice(&l[at..at + K]);
    usize::from_be_bytes(eight)
}

// Eight bytes as one word, the first byte the lowest: one load when compiled.
pub fn word(l: &[u8], at: usize) -> u64
    requires { at + 8 ≤ length l.now }
    ensures { result ≡ word_in (drop at l.now) 8 }
{
    u64::from_le_bytes([
        l[at],
        l[at + 1],
        l[at + 2],
        l[at + 3],
        l[at + 4],
        l[at + 5],
        l[at + 6],
        l[at + 7],
    ])
}

// The same of fewer bytes that have eight up to their end: the bytes before them are shifted out.
pub fn part_word(l: &[u8], at: usize, k: usize) -> u64
    requires { (k < 8) × (8 ≤ at + k) × (at + k ≤ length l.now) }
    ensures { result ≡ word_in (drop at l.now) k }
{
    let x = word(l, at + k - 8);
    x >> (8 * (7 - k)) >> 8
}

// The set bits of eight bytes.
pub fn word_ones(l: &[u8], at: usize) -> usize
    requires { at + 8 ≤ length l.now }
    ensures { result ≡ ones (bits_in (drop at l.now) 64) }
{
    u64::count_ones(word(l, at)) as usize
}

// The set bits of a byte, by the table.
pub fn tally(x: u8) -> usize
    ensures { (result ≡ ones (bits8 x)) × (result ≤ 8) }
{
    TALLIES[x as usize] as usize
}

// The set bits of bytes from..upto, at most a sub-block of them.
pub fn tally_bytes(l: &[u8], from: usize, upto: usize) -> usize
    requires { (from ≤ upto) × (upto ≤ length l.now) × (upto ≤ from + sub_block_size) }
    ensures { (result ≡ ones (bits_in (drop from l.now) (8 * (upto - from)))) × (result ≤ sub_block_bits) }
{
    let mut sum: usize = 0;
    for x in &l[from..upto] {
        sum += tally(*x);
    }
    sum
}

// The set bits among the first k of byte `at`: the bits behind them are shifted out.
pub fn tally_part(l: &[u8], at: usize, k: usize) -> usize
    requires { (at < length l.now) × (k ≤ 8) }
    ensures { (result ≡ ones (bits_in (drop at l.now) k)) × (result ≤ k) }
{
    let x = (l[at] as usize) >> (8 - k);
    TALLIES[x] as usize
}

// The place of set bit number k of a byte, or 8 if it has none, by the table.
pub fn place(x: u8, k: usize) -> usize
    requires { k < 8 }
    ensures { result ≡ place_of x k }
{
    let row = PLACES[x as usize];
    ((row >> (4 * (7 - k))) % 16) as usize
}
