// The walk of the test: from the lists, the claimed bounds and the quarters of a square it finds whether the square fits.
ghost use Rattle.std.specs.Prelude.{◌≡◌, ◌≢◌, ℕ, ◌+◌, ◌*◌, ◌-◌, ◌/◌, ◌%◌, ◌^◌, ◌<◌, length, get_or};
ghost use Rattle.survey.specs.Raster.{side_limit};
ghost use Rattle.survey.specs.Reading.{greatest_in, least_in, lists_in, survey_in, is_file};
ghost use Rattle.grid.specs.Claims.{Says};
ghost use Rattle.grid.specs.Test.{depth_in, Bare, Looked, Quartered, Wholly, is_short, is_sized};

mod square;

use crate::Grid;
use square::Square;
use squares::{Pair, Quad};
use survey::sides;

// How many running counts T, Lmax and Lmin have at most, on a grid of the largest side: one for each 512 bits, and a list has two sections of bits. One
// array has them all, since it is quicker to clear than three.
const MARKS: usize = 683;

const DROPS: usize = 5462;

const RISES: usize = 1366;

const COUNTS: usize = MARKS + DROPS + RISES;

impl Grid<'_> {
    // Whether the file is the stored form of the survey that it says. Whatever counts the grid has, it makes its own.
    pub fn is_sound(&self) -> bool
        ensures { result ≡ is_file self.now.file.now }
    {
        if self.bounds.hi == self.bounds.lo {
            // A heading of 20 bytes and the eleven counts of three empty lists, 4 bytes each.
            return self.file.len() == 64;
        }
        if self.depth == 0 || !self.is_short() {
            return false;
        }
        self.is_whole_by_counts()
    }

    // The same as `is_whole`, found by running counts. They are made here and in a frame of their own, since an even survey and most of what is refused
    // need none.
    #[inline(never)]
    fn is_whole_by_counts(&self) -> bool
        requires deep { 0 < depth_in self.now.file.now }
        requires uneven { greatest_in self.now.file.now ≢ least_in self.now.file.now }
        ensures { Wholly (survey_in self.now.file.now) (lists_in self.now.file.now) (depth_in self.now.file.now - 1) (greatest_in self.now.file.now) (least_in self.now.file.now) result }
    {
        let mut counts = [0; COUNTS];
        let (marks, rest) = counts.split_at_mut(MARKS);
        let (drops, rises) = rest.split_at_mut(DROPS);
        self.indexed(marks, drops, rises).is_whole()
    }

    // Whether the lists are no longer than the table of sides allows; the paper has the test go by the table's entry counts.
    fn is_short(&self) -> bool
        ensures { let l = lists_in self.now.file.now in result ≡ is_short (depth_in self.now.file.now - 1) (length l.split_marks) (length l.lmax) (length l.lmin) }
    {
        let above = self.depth.saturating_sub(1);
        let most = sides::of_depth(above + 1).entries;
        let less = sides::of_depth(above).entries;
        self.split.len() <= less && self.max.len() <= most && self.min.len() <= less
    }

    // Whether T, Lmax and Lmin have the lengths that counting ones level by level gives.
    fn is_sized(&self) -> bool
        ensures { result ≡ is_sized (lists_in self.now.file.now) (depth_in self.now.file.now - 1) }
    {
        let mut z = 0;
        for _ in 1..self.depth {
            z = 4 + 4 * self.split.ones_before(z);
        }
        self.split.len() == z
            && self.max.len() == 4 + 4 * self.split.ones_before(z)
            && self.min.len() == self.split.ones()
    }

    // Whether the lists have their lengths and the four quarters of the whole square fit, and make its greatest and least.
    fn is_whole(&self) -> bool
        requires deep { 0 < depth_in self.now.file.now }
        requires uneven { greatest_in self.now.file.now ≢ least_in self.now.file.now }
        ensures { Wholly (survey_in self.now.file.now) (lists_in self.now.file.now) (depth_in self.now.file.now - 1) (greatest_in self.now.file.now) (least_in self.now.file.now) result }
    {
        let whole = Square {
            depth: self.depth,
            row: 0,
            column: 0,
            place: 0,
        };
        self.is_sized() && self.quarters(whole, 0, self.bounds).is_some()
    }

    // The pair of a square, if it fits under its parent's.
    #[cycle(look)]
    fn look(&self, s: Square, parent: Pair) -> Option<Pair>
        requires { Says (survey_in self.now.file.now) (lists_in self.now.file.now) s.depth s.place parent.hi s.row s.column }
        ensures { Looked (survey_in self.now.file.now) (lists_in self.now.file.now) s.depth s.place parent.hi parent.lo s.row s.column result }
    {
        let drop = self.max.entry(s.place);
        let side = sides::of_depth(s.depth).side;
        if self.rows <= s.row * side || self.columns <= s.column * side {
            return self.bare(s, drop);
        }
        if parent.hi < drop {
            return None;
        }
        let v = parent.hi - drop;
        if v < parent.lo {
            return None;
        }
        if s.depth == 0 || !self.split.get(s.place) {
            return Some(Pair { hi: v, lo: v });
        }
        let ones = self.split.ones_before(s.place);
        let rise = self.min.entry(ones);
        if v - parent.lo <= rise {
            return None;
        }
        let own = Pair {
            hi: v,
            lo: parent.lo + rise,
        };
        self.quarters(s, 4 * (ones + 1), own)
    }

    // The pair of a split square, if its quarters, of which the first stands at `first`, fit under it and make it.
    #[cycle(look)]
    fn quarters(&self, s: Square, first: usize, own: Pair) -> Option<Pair>
        requires open { (0 < s.depth) × (s.row < side_limit) × (s.column < side_limit) × (first < 2 ^ 40) }
        requires says { (i : ℕ) → i < 4 → Says (survey_in self.now.file.now) (lists_in self.now.file.now) (s.depth - 1) (first + i) own.hi (2 * s.row + i / 2) (2 * s.column + i % 2) }
        ensures { Quartered (survey_in self.now.file.now) (lists_in self.now.file.now) (s.depth - 1) first own s.row s.column result }
    {
        let a = self.look(s.quarter(0, first), own)?;
        let b = self.look(s.quarter(1, first), own)?;
        let c = self.look(s.quarter(2, first), own)?;
        let d = self.look(s.quarter(3, first), own)?;
        let quarters = Quad { a, b, c, d };
        if quarters.above() == own {
            return Some(own);
        }
        None
    }

    // A square without real cells has no difference and no mark.
    fn bare(&self, s: Square, drop: u32) -> Option<Pair>
        requires { drop ≡ get_or (lists_in self.now.file.now).lmax s.place 0 }
        ensures { Bare (lists_in self.now.file.now) s.depth s.place result }
    {
        if drop != 0 {
            return None;
        }
        if s.depth != 0 && self.split.get(s.place) {
            return None;
        }
        Some(Pair::no_cells())
    }
}
