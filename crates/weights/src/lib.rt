// Weights beside an encoding: a list of signed numbers of 32 bits, entry i for the member at index i.
#![tactic(auto)]

ghost use Rattle.std.specs.Prelude.{ℤ, ◌*◌, ◌/◌, ◌≤◌, ◌<◌, ◌≡◌, [], ◌∷◌, false, ◌&&◌, ◌+ℤ◌, length, get_or, SomeIff};
ghost use Rattle.loes.specs.Limits.{max_width};
ghost use Rattle.loes.specs.Bytes.{odd, tabulate};
ghost use Rattle.loes.specs.Entry.{count, edge_count};
ghost use Rattle.loes.specs.Held.{entry_held};
ghost use Rattle.loes.specs.Model.{batch_entry};
ghost use Rattle.loes.specs.Read.{entry_in};
ghost use Rattle.loes.specs.Refusals.{overflow, test};
ghost use Rattle.pack.specs.Packing.{Ready};
ghost use Rattle.merge.specs.Union.{QueueRoom};
ghost use Rattle.join.specs.Joining.{RoomFor};
ghost use Rattle.weights.specs.Weights.{outside, no_weight, writes_with, post as postTo, union_weighted, difference_weighted, pack_weighted_call, post_call, union_weighted_call, difference_weighted_call};
ghost use Rattle.weights.specs.Answers.{posting_outcome, weighted_outcome, posted_at, weighted_call};
ghost use Rattle.weights.specs.Lists.{taken, sum_at, over_at, any_below, kept_to, Flagged};

pub mod member_flags;

use bits::RecordIndex;
use encoding::Encoding;
use encoding::opening::Opened;
use join::Join;
use join::joined::JoinedEdges;
use join::pair::Pair;
use loes::Refusal;
use member_flags::MemberFlags;
use merge::Sizes;

// ---- Post
// Adds an amount to the weight at a place, unless the sum leaves 32 signed bits: nothing is written before that is known.
fn post_at(list: &mut [i32], k: usize, amount: i32) -> Result<bool, Refusal>
    requires { k < length list.old }
    ensures { posting_outcome result list.new ≡ posted_at list.old k amount }
{
    list[k] = list[k].checked_add(amount).ok_or(Refusal::Overflow)?;
    Ok(true)
}

// To an opened encoding's list: 16, then 8, then 17; whether it was posted.
pub fn post_in(o: Opened<'_>, list: &mut [i32], key: &[u8], amount: i32) -> Result<bool, Refusal>
    ensures { posting_outcome result list.new ≡ postTo (entry_in o.entry.bytes.now) list.old key.now amount }
{
    if list.len() != o.encoding.count {
        return Err(Refusal::WrongList);
    }
    match query::index_of_in(o, key)? {
        None => Ok(false),
        Some(i) => post_at(list, i.0, amount),
    }
}

// Adds an amount to the weight of a key, if it is a member.
pub fn post(l: &[u8], list: &mut [i32], key: &[u8], amount: i32) -> Result<bool, Refusal>
    ensures { posting_outcome result list.new ≡ post_call l.now list.old key.now amount }
{
    post_in(encoding::open(l)?, list, key, amount)
}

// ---- Pack
// The encoding and the list of a planned batch, if both fit.
fn write_packed(
    m: usize,
    b: usize,
    batch: &[u8],
    levels: &mut [usize],
    out: &mut [u8],
    list: &mut [i32],
) -> Result<usize, Refusal>
    requires { Ready m batch.now levels.old × (b ≡ edge_count (batch_entry m batch.now)) × (length levels.old ≡ max_width) }
    ensures { weighted_outcome result out.new list.new ≡ pack_weighted_call m batch.now out.old list.old }
{
    let n = pack::count_members(m, batch);
    if list.len() < n {
        return Err(Refusal::ShortBuffer);
    }
    let size = pack::write_planned(m, b, batch, levels, out)?;
    list[..n].fill(0);
    Ok(size)
}

// Packs a batch, with a list of zeros.
pub fn pack_weighted(
    m: usize,
    batch: &[u8],
    out: &mut [u8],
    list: &mut [i32],
) -> Result<usize, Refusal>
    ensures { weighted_outcome result out.new list.new ≡ pack_weighted_call m batch.now out.old list.old }
{
    let mut levels = pack::no_records();
    let b = pack::plan(m, batch, &mut levels)?;
    write_packed(m, b, batch, &mut levels, out, list)
}

// ---- Joins: every test is done before the first entry or byte is written
// The union's encoding and its list, from what merging left in the queue: 5, 14, 17. The sums are read before the edges' last byte is sealed, since the first flags stand in it.
fn write_union(
    width: usize,
    u: Sizes,
    q: &mut [u8],
    wa: &[i32],
    wb: &[i32],
    out: &mut [u8],
    list: &mut [i32],
) -> Result<usize, Refusal>
    requires { Flagged width u.edges u.members q.old × (width ≤ max_width) }
    ensures { weighted_outcome result out.new list.new ≡ writes_with [] (test (any_below (over_at q.old (u.edges / 2) wa.now wb.now) u.members) overflow ∷ []) (entry_held width u.edges q.old) (tabulate (sum_at q.old (u.edges / 2) wa.now wb.now) u.members) out.old list.old }
{
    if u.edges > Encoding::MAX_EDGES {
        return Err(Refusal::TooLarge);
    }
    if build::too_short(width, u.edges, out.len()) || list.len() < u.members {
        return Err(Refusal::ShortBuffer);
    }
    let first = RecordIndex(u.edges / 2);
    let flags = MemberFlags {
        queue: q,
        first,
        count: u.members,
    };
    if flags.any_outside(wa, wb) {
        return Err(Refusal::Overflow);
    }
    flags.write_sums(wa, wb, &mut list[..u.members]);
    records::seal(q, first);
    let joined = JoinedEdges {
        width,
        bits: u.edges,
        bytes: q,
    };
    Ok(joined.put(out))
}

// The difference's encoding and its list, from what subtracting left: 5, 14.
fn write_difference(
    left: JoinedEdges<'_>,
    flags: MemberFlags<'_>,
    wa: &[i32],
    out: &mut [u8],
    list: &mut [i32],
) -> Result<usize, Refusal>
    requires { length (kept_to flags.queue.now flags.first.0 wa.now flags.count) ≡ count (entry_held left.width left.bits left.bytes.now) }
    ensures { weighted_outcome result out.new list.new ≡ writes_with [] [] (entry_held left.entry.width left.entry.bits left.entry.bytes.now) (kept_to flags.entry.queue.now flags.entry.first.0 wa.now flags.entry.count) out.old list.old }
{
    if left.bits > Encoding::MAX_EDGES {
        return Err(Refusal::TooLarge);
    }
    let n = left.members();
    if left.too_long(out.len()) || list.len() < n {
        return Err(Refusal::ShortBuffer);
    }
    flags.write_kept(wa, &mut list[..n]);
    Ok(left.put(out))
}

// The union of two opened encodings of one width: 16, then as above.
fn unite(
    pair: Pair<'_, '_>,
    wa: &[i32],
    wb: &[i32],
    q: &mut [u8],
    out: &mut [u8],
    list: &mut [i32],
) -> Result<usize, Refusal>
    requires { QueueRoom pair.first.encoding.bits pair.second.encoding.bits q.old }
    ensures { weighted_outcome result out.new list.new ≡ union_weighted (entry_in pair.entry.first.bytes.now) wa.now (entry_in pair.entry.second.bytes.now) wb.now out.old list.old }
{
    if wa.len() != pair.first.encoding.count {
        return Err(Refusal::WrongList);
    }
    if wb.len() != pair.second.encoding.count {
        return Err(Refusal::WrongList);
    }
    let first = join::edge_bytes(pair.first);
    let second = join::edge_bytes(pair.second);
    let u = join::merged(first, second, q);
    write_union(first.width, u, q, wa, wb, out, list)
}

// The difference of two; only the first has a list.
fn subtract(
    pair: Pair<'_, '_>,
    wa: &[i32],
    q: &mut [u8],
    edges: &mut [u8],
    out: &mut [u8],
    list: &mut [i32],
) -> Result<usize, Refusal>
    requires { QueueRoom pair.first.encoding.bits pair.second.encoding.bits q.old × (pair.first.encoding.bits < 8 * length edges.old) }
    ensures { weighted_outcome result out.new list.new ≡ difference_weighted (entry_in pair.entry.first.bytes.now) wa.now (entry_in pair.entry.second.bytes.now) out.old list.old }
{
    if wa.len() != pair.first.encoding.count {
        return Err(Refusal::WrongList);
    }
    let first = join::edge_bytes(pair.first);
    let second = join::edge_bytes(pair.second);
    let d = join::subtracted(first, second, q, edges);
    let left = JoinedEdges {
        width: first.width,
        bits: d.edges,
        bytes: edges,
    };
    let flags = MemberFlags {
        queue: q,
        first: d.flags,
        count: d.flagged,
    };
    write_difference(left, flags, wa, out, list)
}

// Joins in rooms of its own, those for encodings of at most N bytes. It stays a function when compiled, one for each of the sizes, as that of crate join does.
#[inline(never)]
fn join_in<const N: usize, const QUEUE: usize, const EDGES: usize>(
    kind: Join,
    a: &[u8],
    wa: &[i32],
    b: &[u8],
    wb: &[i32],
    out: &mut [u8],
    list: &mut [i32],
) -> Result<usize, Refusal>
    requires { RoomFor N (length a.now) (length b.now) QUEUE EDGES }
    ensures { weighted_outcome result out.new list.new ≡ weighted_call kind a.now wa.now b.now wb.now out.old list.old }
{
    let pair = join::open_both(a, b)?;
    let mut q = [0; QUEUE];
    match kind {
        Join::Union => unite(pair, wa, wb, &mut q, out, list),
        Join::Difference => {
            let mut edges = [0; EDGES];
            subtract(pair, wa, &mut q, &mut edges, out, list)
        }
    }
}

// Joins in the smallest rooms that serve the longer of the two.
#[tactic(auto, unfolding(join::specs::Joining::is_size))]
fn join_by_length(
    kind: Join,
    a: &[u8],
    wa: &[i32],
    b: &[u8],
    wb: &[i32],
    out: &mut [u8],
    list: &mut [i32],
) -> Result<usize, Refusal>
    ensures { weighted_outcome result out.new list.new ≡ weighted_call kind a.now wa.now b.now wb.now out.old list.old }
{
    let n = a.len().max(b.len());
    if n <= join::TINY {
        join_in::<{ join::TINY }, { join::TINY_QUEUE }, { join::TINY_EDGES }>(
            kind, a, wa, b, wb, out, list,
        )
    } else if n <= join::SMALL {
        join_in::<{ join::SMALL }, { join::SMALL_QUEUE }, { join::SMALL_EDGES }>(
            kind, a, wa, b, wb, out, list,
        )
    } else if n <= join::MIDDLE {
        join_in::<{ join::MIDDLE }, { join::MIDDLE_QUEUE }, { join::MIDDLE_EDGES }>(
            kind, a, wa, b, wb, out, list,
        )
    } else {
        join_in::<{ join::LARGE }, { join::LARGE_QUEUE }, { join::LARGE_EDGES }>(
            kind, a, wa, b, wb, out, list,
        )
    }
}

// The keys in either set, and a list of their weights: a key that both have weighs the sum.
pub fn union_weighted(
    a: &[u8],
    wa: &[i32],
    b: &[u8],
    wb: &[i32],
    out: &mut [u8],
    list: &mut [i32],
) -> Result<usize, Refusal>
    ensures { weighted_outcome result out.new list.new ≡ union_weighted_call a.now wa.now b.now wb.now out.old list.old }
{
    join_by_length(Join::Union, a, wa, b, wb, out, list)
}

// The keys in the first set but not in the second, and what they weigh in the first.
pub fn difference_weighted(
    a: &[u8],
    wa: &[i32],
    b: &[u8],
    out: &mut [u8],
    list: &mut [i32],
) -> Result<usize, Refusal>
    ensures { weighted_outcome result out.new list.new ≡ difference_weighted_call a.now wa.now b.now out.old list.old }
{
    join_by_length(Join::Difference, a, wa, b, &[], out, list)
}
