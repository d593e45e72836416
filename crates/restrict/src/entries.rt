ghost use Rattle.std.specs.Prelude.{◌*◌, ◌≤◌, length};

use bits::RecordIndex;

// The entries of a union where marking has come: its records, each with the edges that are left of it, and behind them its members.
#[derive(Clone, Copy)]
pub struct MarkedEntries<'a> {
    pub marks: &'a [u8],
    pub queue: &'a [u8],
    pub records: RecordIndex,
    pub flag: u8,
    pub ghost fits: { records.0 ≤ 4 * length marks.now },
}

impl MarkedEntries<'_> {
    ghost use Rattle.std.specs.Prelude.{◌+◌, ◌/◌, ◌%◌, ◌<◌, ◌≡◌};
    ghost use Rattle.loes.specs.Limits.{max_edges};
    ghost use Rattle.records.specs.Records.{record_of_code};
    ghost use Rattle.restrict.specs.Restriction.{kept_at, mask_at};

    // Whether entry j is kept: a record with an edge left, or a member with the flag.
    fn is_kept(self, j: RecordIndex) -> bool
        requires { j.0 < 4 * length self.queue.now }
        ensures { result ≡ kept_at self.entry.flag self.entry.marks.now self.entry.queue.now self.entry.records.0 j.0 }
    {
        if j.0 < self.records.0 {
            records::record_at(self.marks, j) > 0
        } else {
            records::record_at(self.queue, j) == self.flag
        }
    }

    // Record x less the edges that are not kept, whose entries are from c on.
    pub fn kept_record(self, x: u8, c: RecordIndex) -> u8
        requires { (c.0 + x / 2 + x % 2 ≤ 4 * length self.queue.now) × (x < 4) × (length self.queue.now ≤ max_edges) }
        ensures { (record_of_code result ≡ mask_at (kept_at self.entry.flag self.entry.marks.now self.entry.queue.now self.entry.records.0) c.0 (record_of_code x)) × (result < 4) }
    {
        let on_zero = x / 2 == 1 && self.is_kept(c);
        let on_one = x % 2 == 1 && self.is_kept(RecordIndex(c.0 + (x / 2) as usize));
        on_zero as u8 * 2 + on_one as u8
    }
}
