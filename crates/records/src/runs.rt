ghost use Rattle.std.specs.Prelude.{◌*◌, ◌/◌, ◌^◌, ◌<◌, ◌≡◌};

// A run of records: so many bits of a number, two to a record.
#[derive(Clone, Copy)]
pub struct Run {
    pub records: usize,
    pub bits: usize,
    pub ghost fits: { records < 2 ^ bits },
    pub ghost whole: { 2 * (bits / 2) ≡ bits },
}

impl Run {
    ghost use Rattle.std.specs.Prelude.{◌+◌, ◌≤◌, ◌++◌};
    ghost use Rattle.records.specs.Numbers.{records_of};

    // How many records it has.
    pub fn count(self) -> usize
        ensures { result ≡ self.bits / 2 }
    {
        self.bits / 2
    }

    // This run, and one behind it.
    pub fn followed_by(self, next: Run) -> Run
        requires { (self.bits ≤ 16) × (next.bits ≤ 16) }
        ensures records { records_of (result.bits / 2) result.records ≡ records_of (self.bits / 2) self.records ++ records_of (next.bits / 2) next.records }
        ensures bits { result.bits ≡ self.bits + next.bits }
    {
        Run {
            records: (self.records << next.bits) + next.records,
            bits: self.bits + next.bits,
        }
    }
}
