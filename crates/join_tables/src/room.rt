use crate::{PART_ENTRIES, RUN_ENTRIES, SPREAD_ENTRIES};
use records::Tables;

// Memory for the tables that a merge needs.
#[derive(Clone, Copy)]
pub struct TableRoom {
    spreads: [u8; SPREAD_ENTRIES],
    parts: [u32; PART_ENTRIES],
    runs: [u16; RUN_ENTRIES],
}

impl TableRoom {
    // Cleared, in its place: inlined, so that it is not made elsewhere and copied.
    #[inline(always)]
    pub fn new() -> TableRoom {
        TableRoom {
            spreads: [0; SPREAD_ENTRIES],
            parts: [0; PART_ENTRIES],
            runs: [0; RUN_ENTRIES],
        }
    }

    // The tables, filled.
    pub fn fill(&mut self) -> Tables<'_> {
        crate::fill(&mut self.spreads, &mut self.parts, &mut self.runs);
        Tables {
            spreads: &self.spreads,
            parts: &self.parts,
            runs: &self.runs,
        }
    }
}
