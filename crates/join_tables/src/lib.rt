// The tables that joins use: filled into local memory, once for a call.
#![tactic(auto)]

ghost use Rattle.std.specs.Prelude.{◌≡◌, ◌+◌, ◌*◌, ◌<◌, ◌≤◌, length, get_or};
ghost use Rattle.records.specs.Tables.{spread_entries, part_entries, run_entries, edged_entries, Spreads, Parted, Runs, Edged};
ghost use Rattle.join_tables.specs.Entries.{FilledFrom, spread_in, spread_code, part_code, run_code};

pub mod room;

// How many entries each table has.
pub const SPREAD_ENTRIES: usize = 4096;

pub const PART_ENTRIES: usize = 256;

pub const RUN_ENTRIES: usize = 256;

pub const EDGED_ENTRIES: usize = 256;

// ---- Spread

// Two records from x, two from x moved by r, and of the four those that m keeps.
fn spread_entry(x: u8, r: u8, m: u8) -> u8
    requires { r < 8 }
    ensures { result ≡ spread_in x 0 r m }
{
    ((x & 240) | ((x >> r) & 15)) & m
}

// Row f, one of those whose first bit is set: the shift and the mask are the row's, so that many x go at once.
fn spread_row(t: &mut [u8; SPREAD_ENTRIES], f: usize)
    requires { (8 ≤ f) × (f < 16) × FilledFrom spread_code 2048 (256 * f) t.old }
    ensures { FilledFrom spread_code 2048 (256 * f + 256) t.new }
{
    let f1 = (f / 4 % 2) as u8;
    let f2 = (f / 2 % 2) as u8;
    let f3 = (f % 2) as u8;
    let r = 4 - 2 * (f1 + f2);
    let m = 192 + 48 * f1 + 12 * f2 + 3 * f3;
    let at = 256 * f;
    for x in 0..256 {
        t[at + x] = spread_entry(x as u8, r, m);
    }
}

// Row f, one of the others: that of the last three bits of f and a set one, one record on.
fn moved_row(t: &mut [u8; SPREAD_ENTRIES], f: usize)
    requires { (f < 8) × FilledFrom spread_code (256 * f + 256) spread_entries t.old }
    ensures { FilledFrom spread_code (256 * f) spread_entries t.new }
{
    let at = 256 * f;
    let from = 512 * f + 256;
    for x in 0..256 {
        t[at + x] = t[from + x] / 4;
    }
}

// Entry 256·f + x: the four records of x put where the four bits of f are set.
fn fill_spread(t: &mut [u8; SPREAD_ENTRIES])
    ensures { Spreads t.new }
{
    for f in 8..16 {
        spread_row(t, f);
    }
    for f in (0..8).rev() {
        moved_row(t, f);
    }
}

// ---- Parts

// The entries of the first sixteen numbers, four a turn, from that of one record less: its six fields of bits double, its two counts do not, and the record adds its own part.
#[tactic(auto, using(crate::proofs::PartTable::part_fits))]
fn first_parts(t: &mut [u32; PART_ENTRIES])
    ensures { FilledFrom part_code 0 16 t.new }
{
    t[0] = 0;
    for i in 0..4 {
        let e = t[i];
        let d = e + (e & 0xffff0ff0);
        let at = 4 * i;
        t[at] = d;
        t[at + 1] = d + 0x00110101;
        t[at + 2] = d + 0x01011010;
        t[at + 3] = d + 0x10011111;
    }
}

// The sixteen entries from 16·k on: the parts of the two records of k in front of two others.
fn parts_row(t: &mut [u32; PART_ENTRIES], k: usize)
    requires { (1 ≤ k) × (k < 16) × FilledFrom part_code 0 (16 * k) t.old }
    ensures { FilledFrom part_code 0 (16 * k + 16) t.new }
{
    let e = t[k];
    let d = e + (e & 0xffff0ff0) * 3;
    let at = 16 * k;
    for y in 0..16 {
        t[at + y] = d + t[y];
    }
}

// Entry x: the parts of the four records of x.
fn fill_parts(t: &mut [u32; PART_ENTRIES])
    ensures { Parted t.new }
{
    first_parts(t);
    for k in 1..16 {
        parts_row(t, k);
    }
}

// ---- Runs

// The entries of 2·x and 2·x + 1, four a turn, from that of one bit less of each: the run itself, or with one more record behind.
#[tactic(auto, using(crate::proofs::RunTable::run_fits))]
fn runs_row(t: &mut [u16; RUN_ENTRIES], x: usize)
    requires { (x < 8) × (get_or t.old 0 0 ≡ 0) × FilledFrom run_code 0 (32 * x) t.old }
    ensures { FilledFrom run_code 0 (32 * x + 32) t.new }
{
    let from = 16 * x;
    for y in 0..8 {
        let e = t[from + y];
        let d = e + e % 256 * 3 + 512;
        let at = 32 * x + 2 * y;
        t[at] = e;
        t[at + 1] = d + 2;
        t[at + 16] = d + 1;
        t[at + 17] = d + 3;
    }
}

// Entry 16·x + y: the run of the flags of the bits of x and of y.
fn fill_runs(t: &mut [u16; RUN_ENTRIES])
    ensures { Runs t.new }
{
    t[0] = 0;
    for x in 0..8 {
        runs_row(t, x);
    }
}

// ---- These three: a merge needs them
pub fn fill(
    spreads: &mut [u8; SPREAD_ENTRIES],
    parts: &mut [u32; PART_ENTRIES],
    runs: &mut [u16; RUN_ENTRIES],
)
    ensures { Spreads spreads.new × Parted parts.new × Runs runs.new }
{
    fill_spread(spreads);
    fill_parts(parts);
    fill_runs(runs);
}

// ---- Edged: only what compacts needs it, so it is filled apart

// Entry x: the run of the records of x that have an edge, four a turn, from that of one record less: the run itself, or with one more record behind.
#[tactic(auto, using(crate::proofs::EdgedTable::edged_fits))]
pub fn fill_edged(t: &mut [u16; EDGED_ENTRIES])
    ensures { Edged t.new }
{
    t[0] = 0;
    for i in 0..64 {
        let h = t[i];
        let d = h + h % 256 * 3 + 512;
        let at = 4 * i;
        t[at] = h;
        t[at + 1] = d + 1;
        t[at + 2] = d + 2;
        t[at + 3] = d + 3;
    }
}
