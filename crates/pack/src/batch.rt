// A batch of keys: how far each agrees with the one before it, and what is refused of it.
ghost use Rattle.std.specs.Prelude.{◌≡◌};
ghost use Rattle.pack.specs.Whole.{Whole};

use loes::Refusal;

// Keys of a width, laid end to end: so many bytes each, so many keys.
#[derive(Clone, Copy)]
pub struct Batch<'a> {
    pub width: usize,
    pub size: usize,
    pub count: usize,
    pub bytes: &'a [u8],
    pub ghost whole: { Whole width size count bytes.now },
}

impl<'a> Batch<'a> {
    ghost use Rattle.std.specs.Prelude.{ℕ, ◌+◌, ◌*◌, ◌/◌, ◌%◌, ◌<◌, ◌≤◌, length, take, drop};
    ghost use Rattle.loes.specs.Limits.{max_width};
    ghost use Rattle.loes.specs.Bytes.{bit, bit_at};
    ghost use Rattle.loes.specs.Keys.{less};
    ghost use Rattle.loes.specs.Entry.{key_bytes};
    ghost use Rattle.pack.specs.Rising.{first_new};
    ghost use Rattle.pack.specs.Batch.{key, key_at, previous, KeyChecked};

    // The keys that these bytes are.
    pub fn of(width: usize, bytes: &'a [u8]) -> Batch<'a>
        requires { (0 < width) × (width ≤ max_width) × (length bytes.now % key_bytes width ≡ 0) }
        ensures { (result.width ≡ width) × (result.count ≡ length bytes.now / key_bytes width) × (result.bytes.now ≡ bytes.now) }
    {
        let size = bits::bytes_for(width);
        Batch {
            width,
            size,
            count: bytes.len() / size,
            bytes,
        }
    }

    // Key i.
    pub fn key(self, i: usize) -> &'a [u8]
        requires { i < self.count }
        ensures { result.now ≡ key_at self.entry i }
    {
        let at = self.size * i;
        &self.bytes[at..at + self.size]
    }

    // Bit e of key i.
    pub fn bit(self, i: usize, e: usize) -> usize
        requires { (i < self.count) × (e < self.width) }
        ensures { result ≡ bit (bit_at (key_at self.entry i) e) }
    {
        bits::bit_at(self.key(i), e) as usize
    }

    // The least length of which key i has a prefix that no key before it has; one more than its width if it equals the key before it.
    pub fn first_new(self, i: usize) -> usize
        requires { i < self.count }
        ensures { result ≡ first_new (key self.entry.width self.entry.bytes.now) i }
    {
        if i == 0 {
            return 0;
        }
        crate::common_prefix(self.key(i - 1), self.key(i), self.width) + 1
    }

    // Whether key i is smaller than the one before it, which then has 1 in the first bit in which they differ.
    fn descends(self, i: usize, new: usize) -> bool
        requires { (i < self.count) × (new ≡ first_new (key self.width self.bytes.now) i) }
        ensures { result ≡ less (key self.entry.width self.entry.bytes.now i) (previous (key self.entry.width self.entry.bytes.now) i) }
    {
        if i == 0 || new > self.width {
            return false;
        }
        bits::bit_at(self.key(i - 1), new - 1)
    }

    // Refuses key i with 11 or 12, or tells the least length of which it has a new prefix.
    pub fn check_key(self, i: usize) -> Result<usize, Refusal>
        requires { i < self.count }
        ensures { KeyChecked self.entry.width self.entry.bytes.now i result }
    {
        if bits::unused_set(self.key(i), self.size, self.width) {
            return Err(Refusal::UnusedBitSet);
        }
        let new = self.first_new(i);
        if self.descends(i, new) {
            return Err(Refusal::Descending);
        }
        Ok(new)
    }
}
