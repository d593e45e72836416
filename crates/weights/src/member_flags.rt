ghost use Rattle.std.specs.Prelude.{◌≡◌, get_or};
ghost use Rattle.loes.specs.Bytes.{odd};
ghost use Rattle.weights.specs.Weights.{no_weight};
ghost use Rattle.weights.specs.Lists.{taken, FlagsFit};

use bits::RecordIndex;
use restrict::Members;

// Lists of two sets, read in step with the flags of their union's members. A weight is read before its flag says whether to take it, so that no load waits for its own flag and the choice takes no jump.
// Weight i of a list, or 0 where there is none.
fn weight_at(ws: &[i32], i: usize) -> i32
    ensures { result ≡ get_or ws.now i no_weight }
{
    ws.get(i).copied().unwrap_or(0)
}

// The same if f is odd, else 0.
fn weight_if(f: u8, ws: &[i32], i: usize) -> i32
    ensures { result ≡ taken (odd f) ws.now i }
{
    let x = weight_at(ws, i);
    if f % 2 == 1 { x } else { 0 }
}

// The flags of the members of two sets' union, in order, from a record of a queue on: each says in which of the two its member is.
#[derive(Clone, Copy)]
pub struct MemberFlags<'a> {
    pub queue: &'a [u8],
    pub first: RecordIndex,
    pub count: usize,
    pub ghost fit: { FlagsFit queue.now first.0 count },
}

impl MemberFlags<'_> {
    ghost use Rattle.std.specs.Prelude.{◌<◌, ◌≡◌, false, length};
    ghost use Rattle.loes.specs.Bytes.{tabulate};
    ghost use Rattle.weights.specs.Lists.{sum_at, over_at, any_below, kept_to, FlagRead};

    // The flag of member i.
    fn at(self, i: usize) -> u8
        requires { i < self.count }
        ensures { FlagRead self.entry.queue.now self.entry.first.0 i result }
    {
        records::record_at(self.queue, RecordIndex(self.first.0 + i))
    }

    // Whether some member of both has a sum that leaves 32 signed bits. No member ends the loop, so that it takes no jump.
    pub fn any_outside(self, wa: &[i32], wb: &[i32]) -> bool
        ensures { result ≡ any_below (over_at self.entry.queue.now self.entry.first.0 wa.now wb.now) self.entry.count }
    {
        let mut ia: usize = 0;
        let mut ib: usize = 0;
        let mut over = false;
        for i in 0..self.count {
            let f = self.at(i);
            let x = weight_if(f, wa, ia);
            let y = weight_if(f / 2, wb, ib);
            over |= x.checked_add(y).is_none();
            ia += usize::from(f % 2);
            ib += usize::from(f / 2);
        }
        over
    }

    // Writes the sums of all members to a list of as many entries: none leaves 32 signed bits.
    pub fn write_sums(self, wa: &[i32], wb: &[i32], list: &mut [i32])
        requires { (length list.old ≡ self.count) × (any_below (over_at self.queue.now self.first.0 wa.now wb.now) self.count ≡ false) }
        ensures { list.new ≡ tabulate (sum_at self.entry.queue.now self.entry.first.0 wa.now wb.now) self.entry.count }
    {
        let mut ia: usize = 0;
        let mut ib: usize = 0;
        for i in 0..self.count {
            let f = self.at(i);
            list[i] = weight_if(f, wa, ia) + weight_if(f / 2, wb, ib);
            ia += usize::from(f % 2);
            ib += usize::from(f / 2);
        }
    }

    // Writes the weights of the members that only the first has to a list of as many. Each weight is put at the next place, kept or not: the next one that is kept is put over one that is not.
    pub fn write_kept(self, wa: &[i32], list: &mut [i32])
        requires { length list.old ≡ length (kept_to self.queue.now self.first.0 wa.now self.count) }
        ensures { list.new ≡ kept_to self.entry.queue.now self.entry.first.0 wa.now self.entry.count }
    {
        let mut ia: usize = 0;
        let mut k: usize = 0;
        for i in 0..self.count {
            let f = self.at(i);
            let x = weight_at(wa, ia);
            if k < list.len() {
                list[k] = x;
            }
            ia += usize::from(f % 2);
            k += usize::from(f == Members::FirstOnly.flag());
        }
    }
}
