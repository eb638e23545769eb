// Sections written one entry at a time, in lanes side by side.
ghost use Rattle.std.specs.Prelude.{◌≡◌, ◌+◌, ◌^◌, ◌<◌, length, set, slice_index};
ghost use Rattle.coding.specs.Bits.{digits};
ghost use Rattle.coding.specs.Lanes.{item_of, only, HasRoom, Puts, total, Started};

mod part;

use crate::bits;
pub use part::Part;

// The byte b with its digit k made v. Tests inside a test are compiled to moves; a `match` of both at once is to jumps, which a processor guesses wrong.
fn mend(b: u8, k: usize, v: bool) -> u8
    requires { k < 8 }
    ensures { digits 8 result ≡ set (digits 8 b) k v }
{
    if bits::digit(b, k) {
        if v { b } else { b - (1 << k) }
    } else if v {
        b + (1 << k)
    } else {
        b
    }
}

// Where element n of lane d stands, which is before lane d + 1 starts.
fn place(starts: &[u32], d: usize, n: u32) -> usize
    requires d_in_bounds { d < length starts.now }
    requires in_lane { slice_index starts.now d + n < slice_index starts.now (d + 1) }
    ensures { (result ≡ slice_index starts.now d + n) × (result + 1 < 2 ^ 32) }
{
    (starts[d] + n) as usize
}

// Lanes side by side in `out`: lane d starts at starts[d], and cur[d] elements of it are written. Two slices and no slice of pairs, since `starts` has
// one more, for the end, and is lent for reading alone; and no slice for each lane, since bits of two lanes may share a byte.
#[derive(Drop)]
pub struct Lanes<'a> {
    pub starts: &'a [u32],
    pub cur: &'a mut [u32],
    pub out: &'a mut [u8],
}

impl Lanes<'_> {
    // Puts what the part has of the number v to lane d.
    pub fn put(&mut self, part: Part, d: usize, v: u32)
        requires d_in_bounds { d < length self.old.cur.now }
        requires room { HasRoom part.bits self.old (only d (item_of part v)) }
        ensures { Puts part.bits self.old self.new (only d (item_of part v)) }
    {
        if v < part.from {
            return;
        }
        let n = self.cur[d];
        let at = place(self.starts, d, n);
        if part.bits {
            let q = at / 8;
            self.out[q] = mend(self.out[q], at % 8, part.by <= v);
        } else {
            self.out[at] = (v / part.by % 256) as u8;
        }
        self.cur[d] = n + 1;
    }
}

// Where the lanes start that have these counts.
pub fn start(counts: &[u32], starts: &mut [u32])
    requires starts_len { length starts.old ≡ length counts.now + 1 }
    requires counts_bound { total counts.now (length counts.now) < 2 ^ 32 }
    ensures { Started counts.now starts.new }
{
    starts[0] = 0;
    let mut at = 0;
    for (i, n) in counts.iter().enumerate() {
        at += *n;
        starts[i + 1] = at;
    }
}
