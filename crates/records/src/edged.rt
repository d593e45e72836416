ghost use Rattle.records.specs.Tables.{Edged};

use crate::runs::Run;

// The table that compaction looks bytes of records up in: filled once for a call, and lent.
#[derive(Clone, Copy)]
pub struct EdgedTable<'a> {
    pub entries: &'a [u16],
    pub ghost edged: { Edged entries.now },
}

impl EdgedTable<'_> {
    ghost use Rattle.std.specs.Prelude.{◌/◌, ◌≤◌, ◌≡◌};
    ghost use Rattle.loes.specs.Keys.{those};
    ghost use Rattle.records.specs.Records.{has_edge};
    ghost use Rattle.records.specs.Numbers.{records_of};

    // The records of a byte that have an edge.
    pub fn edged_at(self, x: u8) -> Run
        ensures { (records_of (result.bits / 2) result.records ≡ those has_edge (records_of 4 x)) × (result.bits ≤ 8) }
    {
        crate::run_of(self.entries[x as usize] as usize)
    }
}
