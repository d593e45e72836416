// The members under a prefix: how many come before them, and how many they are. No member is visited.
#![tactic(auto)]

ghost use Rattle.std.specs.Prelude.{◌-◌, ◌*◌, ◌<◌, ◌≤◌, ◌≡◌, length};
ghost use Rattle.loes.specs.Bytes.{bits_in};
ghost use Rattle.loes.specs.Entry.{edges_of};
ghost use Rattle.loes.specs.Read.{entry_in};
ghost use Rattle.loes.specs.Model.{prefix};
ghost use Rattle.loes.specs.Calls.{prefix_call};
ghost use Rattle.prefix.specs.Cuts.{carried, Cuts, Ranged};
ghost use Rattle.prefix.specs.Answers.{prefixed_outcome};

use bits::{EdgeOffset, MemberIndex, RecordIndex};
use encoding::opening::Opened;
use loes::Refusal;

// ---- Where a prefix's members are
// The cut in front of a record of level d, carried down to the members, behind the last level.
fn carry_down(o: Opened<'_>, d: usize, r: RecordIndex) -> RecordIndex
    requires { (0 < o.encoding.bits) × (d ≤ o.encoding.width) × Cuts (entry_in o.bytes.now) d r.0 }
    ensures { result.0 ≡ carried (edges_of (entry_in o.entry.bytes.now)) (o.entry.encoding.width - d) r.0 }
{
    let mut n = r.0;
    for _ in d..o.encoding.width {
        n = o.ones_before(EdgeOffset(2 * n)) + 1;
    }
    RecordIndex(n)
}

// So many members come before a prefix, and so many begin with it.
#[derive(Clone, Copy)]
pub struct Span {
    pub first: MemberIndex,
    pub count: usize,
}

// One descent along the prefix, then the cuts in front of its record and in front of the next are carried down: between them are its members.
fn range_of(o: Opened<'_>, p: usize, bytes: &[u8]) -> Span
    requires { (p ≤ o.encoding.width) × (p ≤ 8 * length bytes.now) }
    ensures { Ranged (entry_in o.entry.bytes.now) (bits_in bytes.now p) result.first.0 result.count }
{
    if o.encoding.bits == 0 {
        return Span {
            first: MemberIndex(0),
            count: 0,
        };
    }
    let at = query::descend(o, bytes, p);
    let low = carry_down(o, p, at.record);
    let first = MemberIndex(low.0 - o.encoding.bits / 2);
    if at.found {
        let high = carry_down(o, p, RecordIndex(at.record.0 + 1));
        return Span {
            first,
            count: high.0 - low.0,
        };
    }
    Span { first, count: 0 }
}

// ---- The question
// Behind the check: 9 for more bits than the width, then 8.
pub fn prefix_in(o: Opened<'_>, p: usize, bytes: &[u8]) -> Result<Span, Refusal>
    ensures { prefixed_outcome result ≡ (prefix (entry_in o.entry.bytes.now) p bytes.now).outcome }
{
    if o.encoding.width < p {
        return Err(Refusal::OutOfRange);
    }
    if query::bad_key(p, bytes) {
        return Err(Refusal::BadKey);
    }
    Ok(range_of(o, p, bytes))
}

// How many members' own first p bits are smaller than the given ones, and how many members begin with these (document 02, request 2).
pub fn prefix(l: &[u8], p: usize, bytes: &[u8]) -> Result<Span, Refusal>
    ensures { prefixed_outcome result ≡ prefix_call l.now p bytes.now }
{
    prefix_in(encoding::open(l)?, p, bytes)
}
