// A list written as five sections, each by a writer that is lent just its own part of the output.
ghost use Rattle.std.specs.Prelude.{◌≡◌, ◌++◌, ◌+◌, ◌≤◌, ◌<◌, length, drop};
ghost use Rattle.std.proofs.lemmas.List.Edits.{sets};
ghost use Rattle.coding.specs.Sections.{packed};
ghost use Rattle.coding.specs.Lanes.{view_of, items_of, size_of, count_from, Written, WrittenAt, Counts};

use crate::lanes::{Lanes, Part};
use crate::word;

// How many numbers are at least `low`. The loop is compiled to vector code, which `filter` and `count` are not.
pub fn count_from(numbers: &[u32], low: u32) -> usize
    ensures { (result ≡ count_from low numbers.now) × (result ≤ length numbers.now) }
{
    let mut count = 0;
    for v in numbers {
        if low <= *v {
            count += 1;
        }
    }
    count
}

// What a part has of the numbers: `count` elements.
#[derive(Drop)]
struct Share<'a> {
    part: Part,
    numbers: &'a [u32],
    count: u32,
    ghost counted: { count ≡ length (items_of part numbers.now) },
}

impl Share<'_> {
    // Lays the elements over the front of `out`.
    fn fill(&self, out: &mut [u8])
        requires { self.now.count ≤ length (view_of self.now.part.bits out.old) }
        ensures { view_of self.now.part.bits out.new
            ≡ items_of self.now.part self.now.numbers.now ++ drop self.now.count (view_of self.now.part.bits out.old) }
    {
        let starts = [0, self.count];
        let mut cur = [0];
        let mut lanes = Lanes {
            starts: &starts,
            cur: &mut cur,
            out,
        };
        for v in self.numbers {
            lanes.put(self.part, 0, *v);
        }
    }

    // Writes the section to just the bytes that it takes. The last byte is cleared first, for its unused bits.
    fn section(&self, out: &mut [u8])
        requires { length out.old ≡ 4 + size_of self.now.part.bits self.now.count }
        ensures { Written self.now.part.bits (items_of self.now.part self.now.numbers.now) out.new }
    {
        let last = out.len() - 1;
        out[last] = 0;
        word::put(out, 0, self.count);
        self.fill(&mut out[4..]);
    }

    // How many bytes the elements take.
    fn size(&self) -> usize
        ensures value { result ≡ size_of self.now.part.bits self.now.count }
        ensures bound { result ≤ self.now.count }
    {
        let n = self.count as usize;
        if self.part.bits { n.div_ceil(8) } else { n }
    }

    // Lends the part of `out` from `at` on that the section takes to its writer. Returns where the section ends.
    fn section_at(&self, out: &mut [u8], at: usize) -> usize
        requires { at + (4 + size_of self.now.part.bits self.now.count) ≤ length out.old }
        ensures end { result ≡ at + (4 + size_of self.now.part.bits self.now.count) }
        ensures written { WrittenAt self.now.part.bits (items_of self.now.part self.now.numbers.now) out.old at out.new }
    {
        let end = at + (4 + self.size());
        self.section(&mut out[at..end]);
        end
    }
}

// Writes the five sections, each from where the section before ended. All n numbers have a first byte, n2 a second and n3 a third. The caller has tested
// that n, as the other two, is a count of 32 bits, which the length of a slice alone does not say.
pub fn list(out: &mut [u8], numbers: &[u32], n: u32, n2: u32, n3: u32)
    requires { Counts numbers.now n n2 n3 (length out.old) }
    ensures { out.new ≡ sets out.old 0 (packed numbers.now) }
{
    let first = Share {
        part: Part::FIRST,
        numbers,
        count: n,
    };
    let more = Share {
        part: Part::MORE,
        numbers,
        count: n,
    };
    let second = Share {
        part: Part::SECOND,
        numbers,
        count: n2,
    };
    let again = Share {
        part: Part::AGAIN,
        numbers,
        count: n2,
    };
    let third = Share {
        part: Part::THIRD,
        numbers,
        count: n3,
    };
    let a = first.section_at(out, 0);
    let b = more.section_at(out, a);
    let c = second.section_at(out, b);
    let d = again.section_at(out, c);
    third.section_at(out, d);
}
