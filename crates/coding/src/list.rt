// Difference lists in bytes: the five sections of one, the test whether they are a list packed, and its entries.
ghost use Rattle.std.specs.Prelude.{◌≡◌, true, false, ◌+◌, ◌<◌, length, get_or, drop, MatchOption};
ghost use Rattle.coding.specs.Lists.{second_of, entry_of};
ghost use Rattle.coding.specs.Sections.{parts_at, packed, list_at, starts_list};
ghost use Rattle.coding.specs.Places.{none_zero, none_idle, agree, Five, after_five};
ghost use Rattle.coding.specs.Seen.{bits_in, parts_in, HaveCounts};

use crate::bits::Bits;
use crate::section;
use crate::section::byte;

// The five sections of a list.
#[derive(Clone, Copy)]
pub struct Sections<'a> {
    pub first: &'a [u8],
    pub more: Bits<'a>,
    pub second: &'a [u8],
    pub again: Bits<'a>,
    pub third: &'a [u8],
}

impl<'a> Sections<'a> {
    // The five sections that `s` starts with, and what is behind them.
    pub fn read(s: &'a [u8]) -> Option<(Sections<'a>, &'a [u8])>
        ensures { MatchOption result (Five s.now → ⊥) (λ p. Five s.now × (parts_in p.0 ≡ parts_at s.now) × (p.1.now ≡ after_five s.now)) }
    {
        let (first, rest) = section::bytes(s)?;
        let (more, rest) = section::bits(rest)?;
        let (second, rest) = section::bytes(rest)?;
        let (again, rest) = section::bits(rest)?;
        let (third, rest) = section::bytes(rest)?;
        let sections = Sections {
            first,
            more,
            second,
            again,
            third,
        };
        Some((sections, rest))
    }

    // The five sections of bytes that are known to start with them.
    pub fn of(s: &'a [u8]) -> Sections<'a>
        requires { Five s.now }
        ensures { parts_in result ≡ parts_at s.now }
    {
        Sections::read(s).unwrap().0
    }

    // The same sections, with running counts of their bits made in `index` as far as it reaches: those of the first bits, then those of the second.
    pub fn indexed(self, index: &'a mut [u32]) -> Sections<'a>
        ensures { (parts_in result ≡ parts_in self.entry) × HaveCounts result (length index.old) }
    {
        let blocks = self.more.blocks().min(index.len());
        let (front, back) = index.split_at_mut(blocks);
        Sections {
            more: self.more.indexed(front),
            again: self.again.indexed(back),
            ..self
        }
    }

    // Whether the counts of the parts agree, and every number has as few bytes as hold it.
    pub fn agree(&self) -> bool
        ensures { result ≡ agree (parts_in self.now) }
    {
        self.more.len() == self.first.len()
            && self.second.len() == self.more.ones()
            && self.again.len() == self.second.len()
            && self.third.len() == self.again.ones()
            && none_idle(self.second, &self.again)
            && none_zero(self.third)
    }

    // Entry i; beyond the end, 0.
    pub fn entry(&self, i: usize) -> u32
        ensures { (result ≡ entry_of (parts_in self.now) i) × (result < 16777216) }
    {
        let low = byte(self.first, i);
        if self.more.get(i) {
            low + 256 * self.upper(self.more.ones_before(i))
        } else {
            low
        }
    }

    // The number that the second and third bytes of an entry make. It goes on like `entry`, but one function of both would take a closure for what follows,
    // and a bound on it.
    fn upper(&self, j: usize) -> u32
        ensures { (result ≡ second_of (parts_in self.now) j) × (result < 65536) }
    {
        let low = byte(self.second, j);
        if self.again.get(j) {
            let k = self.again.ones_before(j);
            let high = byte(self.third, k);
            low + 256 * high
        } else {
            low
        }
    }
}

// A packed list: five sections that agree.
#[derive(Clone, Copy)]
pub struct Coded<'a> {
    pub sections: Sections<'a>,
    pub ghost agrees: { agree (parts_in sections) ≡ true },
}

impl<'a> Coded<'a> {
    ghost use Rattle.coding.specs.Numbers.{numbers_in};

    // The packed list that `s` starts with, and what is behind it.
    pub fn read(s: &'a [u8]) -> Option<(Coded<'a>, &'a [u8])>
        ensures { MatchOption result (starts_list s.now ≡ false) (λ p. (starts_list s.now ≡ true) × (numbers_in p.0 ≡ list_at s.now) × (p.1.now ≡ drop (length (packed (list_at s.now))) s.now)) }
    {
        let (sections, rest) = Sections::read(s)?;
        if sections.agree() {
            return Some((Coded { sections }, rest));
        }
        None
    }

    // The packed list that `f` has from `at` on, and what is behind it; beyond the end there is none.
    pub fn read_from(f: &'a [u8], at: usize) -> Option<(Coded<'a>, &'a [u8])>
        ensures { MatchOption result (starts_list (drop at f.now) ≡ false) (λ p. (starts_list (drop at f.now) ≡ true) × (numbers_in p.0 ≡ list_at (drop at f.now)) × (p.1.now ≡ drop (length (packed (list_at (drop at f.now)))) (drop at f.now))) }
    {
        Coded::read(f.get(at..)?)
    }

    // The same list, with running counts made in `index` as far as it reaches.
    pub fn indexed(self, index: &'a mut [u32]) -> Coded<'a>
        ensures { (numbers_in result ≡ numbers_in self.entry) × HaveCounts result.sections (length index.old) }
    {
        Coded {
            sections: self.sections.indexed(index),
        }
    }

    pub fn len(&self) -> usize
        ensures { result ≡ length (numbers_in self.now) }
    {
        self.sections.first.len()
    }

    // Entry i; beyond the end, 0.
    pub fn entry(&self, i: usize) -> u32
        ensures { (result ≡ get_or (numbers_in self.now) i 0) × (result < 16777216) }
    {
        self.sections.entry(i)
    }
}

// Whether no byte is 0.
fn none_zero(s: &[u8]) -> bool
    ensures { result ≡ none_zero s.now }
{
    !s.contains(&0)
}

// Whether no byte is 0 of which no more follows.
fn none_idle(s: &[u8], more: &Bits<'_>) -> bool
    ensures { result ≡ none_idle s.now (bits_in more.now) }
{
    for (i, x) in s.iter().enumerate() {
        if *x == 0 && !more.get(i) {
            return false;
        }
    }
    true
}
