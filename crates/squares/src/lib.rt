// Raised levels, and the greatest and least of a square as a pair of them.
#![tactic(auto)]

ghost use Rattle.std.specs.Prelude.{◌≡◌};
ghost use Rattle.survey.specs.Level.{raised, lowered, is_level, turned};
ghost use Rattle.survey.specs.Square.{none};
ghost use Rattle.squares.specs.Pair.{pair_of, quad_in, above_of, uneven_of, drop_of, rise_of};

// What a level is raised by.
const OFFSET: u32 = 1 << 31;

// The limits of a level, raised: -8,388,608 and 8,388,607.
const LOWEST_LEVEL: u32 = 2_139_095_040;

const HIGHEST_LEVEL: u32 = 2_155_872_255;

// The greatest and least raised level of a square's real cells. Without any the greatest is 0 and the least 4,294,967,295, so that joining it changes nothing.
#[derive(Clone, Copy, Debug, PartialEq, Eq)]
pub struct Pair {
    pub hi: u32,
    pub lo: u32,
}

// The four pairs of a square's quarters, in order.
#[derive(Clone, Copy, Debug, PartialEq, Eq)]
pub struct Quad {
    pub a: Pair,
    pub b: Pair,
    pub c: Pair,
    pub d: Pair,
}

impl Pair {
    // The pair of a square without real cells.
    pub fn no_cells() -> Pair
        ensures { result ≡ pair_of none }
    {
        Pair {
            hi: 0,
            lo: 4294967295,
        }
    }

    // Whether the square is not even.
    pub fn is_uneven(self) -> bool
        ensures { result ≡ uneven_of self }
    {
        self.lo < self.hi
    }

    // The parent's greatest less the square's own; 0 of a square without real cells.
    pub fn drop_under(self, parent: Pair) -> u32
        ensures { result ≡ drop_of parent self }
    {
        if self.lo <= self.hi {
            parent.hi.saturating_sub(self.hi)
        } else {
            0
        }
    }

    // The square's least less the parent's.
    pub fn rise_over(self, parent: Pair) -> u32
        ensures { result ≡ rise_of parent self }
    {
        self.lo.saturating_sub(parent.lo)
    }
}

impl Quad {
    // The pair of the square above.
    pub fn above(self) -> Pair
        ensures { result ≡ above_of self }
    {
        let Quad { a, b, c, d } = self;
        fold([[a.hi, a.lo], [b.hi, b.lo], [c.hi, c.lo], [d.hi, d.lo]])
    }
}

// Four pairs of greatest and least, folded into the pair of the square above. The paper fixes the form, four rows of two numbers.
fn fold(q: [[u32; 2]; 4]) -> Pair
    ensures { result ≡ above_of (quad_in q) }
{
    Pair {
        hi: q[0][0].max(q[1][0]).max(q[2][0].max(q[3][0])),
        lo: q[0][1].min(q[1][1]).min(q[2][1].min(q[3][1])),
    }
}

// A level raised by 2,147,483,648. The result is a plain number and no type of its own, since raised levels are compared, subtracted and stored as such.
pub fn raise(z: i32) -> u32
    ensures { result ≡ raised z }
{
    turn(z.cast_unsigned())
}

// The level that was raised.
pub fn lower(v: u32) -> i32
    ensures { result ≡ lowered v }
{
    turn(v).cast_signed()
}

// The two's complement of a raised level, and a raised level from its two's complement.
pub fn turn(v: u32) -> u32
    ensures { result ≡ turned v }
{
    v.wrapping_add(OFFSET)
}

// Whether a number is a level.
pub fn is_level(z: i32) -> bool
    ensures { result ≡ is_level (raised z) }
{
    is_raised_level(raise(z))
}

// Whether a number is a raised level.
pub fn is_raised_level(v: u32) -> bool
    ensures { result ≡ is_level v }
{
    (LOWEST_LEVEL..=HIGHEST_LEVEL).contains(&v)
}
