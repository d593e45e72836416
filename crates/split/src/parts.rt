ghost use Rattle.std.specs.Prelude.{◌≤◌};
ghost use Rattle.loes.specs.Limits.{max_edges};

use divide::Three;
use join::joined::JoinedEdges;
use loes::Refusal;

// The edges of the keys in both of two sets, in the first only, in the second only. No part has more than its set, so there is no 5.
#[derive(Clone, Copy)]
pub struct Parts<'a> {
    pub both: JoinedEdges<'a>,
    pub only_first: JoinedEdges<'a>,
    pub only_second: JoinedEdges<'a>,
    pub ghost few_both: { both.bits ≤ max_edges },
    pub ghost few_first: { only_first.bits ≤ max_edges },
    pub ghost few_second: { only_second.bits ≤ max_edges },
}

impl Parts<'_> {
    ghost use Rattle.std.specs.Prelude.{◌≡◌, [], ◌∷◌};
    ghost use Rattle.loes.specs.Held.{entry_held};
    ghost use Rattle.loes.specs.Model.{writes};
    ghost use Rattle.split.specs.Splitting.{split_outcome};

    // Writes their three encodings, if all fit: nothing is written before that is known.
    pub fn write(
        self,
        both: &mut [u8],
        only_first: &mut [u8],
        only_second: &mut [u8],
    ) -> Result<Three, Refusal>
        ensures { split_outcome result both.new only_first.new only_second.new ≡ (writes [] (entry_held self.entry.both.width self.entry.both.bits self.entry.both.bytes.now ∷ entry_held self.entry.only_first.width self.entry.only_first.bits self.entry.only_first.bytes.now ∷ entry_held self.entry.only_second.width self.entry.only_second.bits self.entry.only_second.bytes.now ∷ []) (both.old ∷ only_first.old ∷ only_second.old ∷ [])).outcome }
    {
        if self.both.too_long(both.len())
            || self.only_first.too_long(only_first.len())
            || self.only_second.too_long(only_second.len())
        {
            return Err(Refusal::ShortBuffer);
        }
        Ok(Three {
            both: self.both.put(both),
            only_first: self.only_first.put(only_first),
            only_second: self.only_second.put(only_second),
        })
    }
}
