ghost use Rattle.records.specs.Tables.{Spreads, Parted, Runs};

use crate::kinds::Kept;
use crate::runs::Run;

// The tables that a merge looks records up in: filled once for a call, and lent.
#[derive(Clone, Copy)]
pub struct Tables<'a> {
    pub spreads: &'a [u8],
    pub parts: &'a [u32],
    pub runs: &'a [u16],
    pub ghost spread: { Spreads spreads.now },
    pub ghost parted: { Parted parts.now },
    pub ghost run: { Runs runs.now },
}

// Of four flags: which say that the first, the second has it, and how many.
#[derive(Clone, Copy)]
pub struct Parts {
    pub firsts: usize,
    pub seconds: usize,
    pub first: usize,
    pub second: usize,
}

impl Tables<'_> {
    ghost use Rattle.std.specs.Prelude.{◌/◌, ◌^◌, ◌<◌, ◌≤◌, ◌≡◌, map};
    ghost use Rattle.loes.specs.Edges.{Record};
    ghost use Rattle.records.specs.Records.{flag_of_record, record_of_flag, first_count, second_count};
    ghost use Rattle.records.specs.Numbers.{records_of, bits_of};
    ghost use Rattle.records.specs.Tables.{spread, kept_by, either_flags};
    ghost use Rattle.records.specs.Kinds.{number_of_kept};

    // The records of x put where the bits of f are set.
    pub fn spread_at(self, f: usize, x: usize) -> usize
        requires { (f < 16) × (x < 256) }
        ensures { (records_of 4 result ≡ spread (bits_of 4 f) (records_of 4 x)) × (result < 256) }
    {
        self.spreads[256 * f + x] as usize
    }

    // Of the flags in a byte: which say that the first, the second has it, and how many.
    pub fn parts_at(self, x: u8) -> Parts
        ensures firsts_value { (bits_of 4 result.firsts ≡ map (λ (z : Record). z.on_one) (records_of 4 x)) × (result.firsts < 16) }
        ensures seconds_value { (bits_of 4 result.seconds ≡ map (λ (z : Record). z.on_zero) (records_of 4 x)) × (result.seconds < 16) }
        ensures first_value { (result.first ≡ first_count (map flag_of_record (records_of 4 x))) × (result.first ≤ 4) }
        ensures second_value { (result.second ≡ second_count (map flag_of_record (records_of 4 x))) × (result.second ≤ 4) }
    {
        let h = self.parts[x as usize] as usize;
        Parts {
            firsts: h / 256 % 16,
            seconds: h / 16 % 16,
            first: h % 16,
            second: h / 4096 % 16,
        }
    }

    // Which of the four records of a byte are kept.
    pub fn kept_in(self, x: usize, kept: Kept) -> usize
        requires { x < 256 }
        ensures { (bits_of 4 result ≡ map (kept_by (number_of_kept kept)) (records_of 4 x)) × (result < 16) }
    {
        let h = self.parts[x] as usize;
        (h >> (16 + 4 * kept as usize)) % 16
    }

    // The flags of four bits of each that are in either.
    pub fn run_at(self, x: usize, y: usize) -> Run
        requires { (x < 16) × (y < 16) }
        ensures { (records_of (result.bits / 2) result.records ≡ map record_of_flag (either_flags (bits_of 4 x) (bits_of 4 y))) × (result.bits ≤ 8) }
    {
        crate::run_of(self.runs[16 * x + y] as usize)
    }
}
