// Bits in bytes, the ones among them, and running counts of ones.
ghost use Rattle.std.specs.Prelude.{◌≡◌, false, ◌+◌, ◌*◌, ◌/◌, ◌%◌, ◌^◌, ◌≤◌, ◌<◌, eqb, length, get_or, take};
ghost use Rattle.std.specs.Int.Count as Count;
ghost use Rattle.coding.specs.Bits.{pack_bits};
ghost use Rattle.coding.specs.Sections.{same};
ghost use Rattle.coding.specs.Places.{bits_of, ones_in, Index};

// The first `count` bits of some bytes: bits may end within a byte, so the bytes do not tell how many. `index` has the ones before each block of 512
// bits; it may end early, or have none. The invariant is a ghost field and no view, since a value with a lifetime and a view cannot be copied.
#[derive(Clone, Copy)]
pub struct Bits<'a> {
    pub bytes: &'a [u8],
    pub count: usize,
    pub index: &'a [u32],
    pub ghost counted: { Index bytes.now count index.now },
}

impl<'a> Bits<'a> {
    ghost use Rattle.std.specs.Prelude.{◌≡◌, false, ◌+◌, ◌*◌, ◌/◌, ◌^◌, ◌≤◌, ◌<◌, length, get_or};
    ghost use Rattle.coding.specs.Bits.{ones, ones_before};
    ghost use Rattle.coding.specs.Seen.{bits_in, blocks, HasCounts};

    // The first bits of some bytes, without running counts.
    pub fn new(bytes: &'a [u8], count: usize) -> Bits<'a>
        requires { (count ≤ 8 * length bytes.now) × (count < 2 ^ 32) }
        ensures { bits_in result ≡ bits_of bytes.now count }
    {
        Bits {
            bytes,
            count,
            index: &[],
        }
    }

    // The same bits, with running counts made in `index` as far as it reaches.
    pub fn indexed(self, index: &'a mut [u32]) -> Bits<'a>
        ensures { (bits_in result ≡ bits_in self.entry) × HasCounts result (length index.old) }
    {
        let blocks = self.blocks().min(index.len());
        let index = &mut index[..blocks];
        make_index(self.bytes, self.count, index);
        Bits {
            bytes: self.bytes,
            count: self.count,
            index,
        }
    }

    // How many running counts there are, one for each block of 512 bits.
    pub(crate) fn blocks(&self) -> usize
        ensures { result ≡ blocks self.now }
    {
        self.len().div_ceil(512)
    }

    pub fn len(&self) -> usize
        ensures { (result ≡ length (bits_in self.now)) × (result < 2 ^ 32) }
    {
        self.count
    }

    // The bit i; beyond them, no.
    pub fn get(&self, i: usize) -> bool
        ensures { result ≡ get_or (bits_in self.now) i false }
    {
        get(self.bytes, self.count, i)
    }

    // All ones.
    pub fn ones(&self) -> usize
        ensures { result ≡ ones (bits_in self.now) }
    {
        self.ones_before(self.count)
    }

    // The ones before place z; beyond the last bit, all of them.
    pub fn ones_before(&self, z: usize) -> usize
        ensures { (result ≡ ones_before (bits_in self.now) z) × (result < 2 ^ 32) }
    {
        if z < self.count {
            return self.ones_inside(z);
        }
        if self.count == 0 {
            return 0;
        }
        let last = self.count - 1;
        self.ones_inside(last) + self.get(last) as usize
    }

    // The ones before the place of a bit, from those before its block; those that the index lacks are counted from the start.
    fn ones_inside(&self, z: usize) -> usize
        requires { z < self.now.count }
        ensures { result ≡ ones_before (bits_in self.now) z }
    {
        let block = z / 512;
        let q = z / 8;
        let last = ones_below(self.bytes[q], z % 8);
        match self.index.get(block) {
            Some(sum) => *sum as usize + ones_in(&self.bytes[64 * block..q]) + last,
            None => ones_in(&self.bytes[..q]) + last,
        }
    }
}

// Makes the running counts of the first n bits, as many as `index` has room for. Said of bytes and a count, since it makes the third part of `Bits`.
pub fn make_index(s: &[u8], n: usize, index: &mut [u32])
    requires n_bound { (n ≤ 8 * length s.now) × (n < 2 ^ 32) }
    requires index_len { 512 * length index.old < n + 512 }
    ensures { Index s.now n index.new }
{
    let mut sum = 0;
    for (b, count) in index.iter_mut().enumerate() {
        sum += ones_in(&s[64 * b.saturating_sub(1)..64 * b]);
        *count = sum as u32;
    }
}

// The bit i of the first n; beyond them, no. It stays beside the method since it asks less, of a count of any size.
pub fn get(s: &[u8], n: usize, i: usize) -> bool
    requires { n ≤ 8 * length s.now }
    ensures { result ≡ get_or (bits_of s.now n) i false }
{
    i < n && digit(s[i / 8], i % 8)
}

// The digit of weight 2 to the power k in a byte. Each caller's k is a remainder by 8, which a type for it would only wrap and unwrap.
pub fn digit(x: u8, k: usize) -> bool
    requires { k < 8 }
    ensures { result ≡ eqb (x / 2 ^ k % 2) 1 }
{
    (x >> k) % 2 == 1
}

// The ones in a byte, below the digit of weight 2 to the power k.
fn ones_below(x: u8, k: usize) -> usize
    requires { k < 8 }
    ensures { (result ≡ Count.ones (x % 2 ^ k)) × (result ≤ 8) }
{
    (x & ((1 << k) - 1)).count_ones() as usize
}

// The ones in some bytes, taken eight at a time.
fn ones_in(s: &[u8]) -> usize
    requires { length s.now < 2 ^ 32 }
    ensures { (result ≡ ones_in s.now (length s.now)) × (result ≤ 8 * length s.now) }
{
    let (words, rest) = s.as_chunks::<8>();
    let mut sum = 0;
    for word in words {
        sum += u64::from_le_bytes(*word).count_ones() as usize;
    }
    for x in rest {
        sum += x.count_ones() as usize;
    }
    sum
}

// Whether the unused bits of the bytes that hold n bits are 0. Said of bytes and a count, since it is asked before there are `Bits` of them.
pub fn clear_behind(s: &[u8], n: usize) -> bool
    requires { (n + 7) / 8 ≤ length s.now }
    ensures { result ≡ same (pack_bits (bits_of s.now n)) (take ((n + 7) / 8) s.now) }
{
    let k = n % 8;
    k == 0 || s[n / 8] >> k == 0
}
