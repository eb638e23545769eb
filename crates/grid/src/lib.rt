// Stored grids: a file opened, and the test of one.
#![tactic(auto)]

mod check;
mod heading;

ghost use Rattle.std.specs.Prelude.{◌≡◌, true, length, MatchOption};
ghost use Rattle.coding.specs.Seen.{bits_in, HasCounts, HaveCounts};
ghost use Rattle.coding.specs.Numbers.{numbers_in};
ghost use Rattle.survey.specs.Answers.{as_heading};
ghost use Rattle.survey.specs.Calls.{Tests};
ghost use Rattle.survey.specs.Reading.{is_file};
ghost use Rattle.grid.specs.Test.{is_headed, IsParted, AreLists, Opened};

use coding::bits::Bits;
use coding::list::Coded;
use coding::refusal::Refusal;
use coding::{section, word};
use squares::Pair;
use survey::{Outline, sides};

// A file opened whose sections follow one another to its end: what its heading says, and its three lists.
#[derive(Clone, Copy)]
pub struct Grid<'a> {
    pub file: &'a [u8],
    pub rows: usize,
    pub columns: usize,
    pub depth: usize,
    pub bounds: Pair,
    pub split: Bits<'a>,
    pub max: Coded<'a>,
    pub min: Coded<'a>,
    pub ghost opened: { Opened file.now rows columns depth bounds (bits_in split) (numbers_in max) (numbers_in min) },
}

impl<'a> Grid<'a> {
    // The bytes opened, if they have a heading and sections.
    pub fn open(file: &'a [u8]) -> Option<Grid<'a>>
        ensures { MatchOption result (IsParted file.now → ⊥) (λ g. IsParted file.now × (g.file.now ≡ file.now)) }
    {
        if !heading::is_headed(file) {
            return None;
        }
        let (split, max, min) = lists(file)?;
        let rows = word::get(file, 4) as usize;
        let columns = word::get(file, 8) as usize;
        Some(Grid {
            file,
            rows,
            columns,
            depth: sides::depth_for(rows, columns),
            bounds: Pair {
                hi: squares::turn(word::get(file, 12)),
                lo: squares::turn(word::get(file, 16)),
            },
            split,
            max,
            min,
        })
    }

    // The same grid, with running counts of its bits made as far as the three slices reach.
    pub fn indexed(
        self,
        marks: &'a mut [u32],
        drops: &'a mut [u32],
        rises: &'a mut [u32],
    ) -> Grid<'a>
        ensures same { result.file.now ≡ self.entry.file.now }
        ensures counts { HasCounts result.split (length marks.old) × HaveCounts result.max.sections (length drops.old) × HaveCounts result.min.sections (length rises.old) }
    {
        Grid {
            file: self.file,
            rows: self.rows,
            columns: self.columns,
            depth: self.depth,
            bounds: self.bounds,
            split: self.split.indexed(marks),
            max: self.max.indexed(drops),
            min: self.min.indexed(rises),
        }
    }
}

// T, Lmax and Lmin, where they stand behind the heading and nothing is behind them.
fn lists(file: &[u8]) -> Option<(Bits<'_>, Coded<'_>, Coded<'_>)>
    requires { is_headed file.now ≡ true }
    ensures { MatchOption result (IsParted file.now → ⊥) (λ l. IsParted file.now × AreLists file.now (bits_in l.0) (numbers_in l.1) (numbers_in l.2)) }
{
    let (split, rest) = section::bits_from(file, 20)?;
    let (max, rest) = Coded::read(rest)?;
    let (min, rest) = Coded::read(rest)?;
    if !rest.is_empty() {
        return None;
    }
    Some((split, max, min))
}

// Whether bytes are the stored form of some survey within the limits.
pub fn is_file(f: &[u8]) -> bool
    ensures { result ≡ is_file f.now }
{
    match Grid::open(f) {
        Some(grid) => grid.is_sound(),
        None => false,
    }
}

// Rows, columns, greatest and least of a stored grid.
pub fn test(f: &[u8]) -> Result<Outline, Refusal>
    ensures { Tests f.now (as_heading result) }
{
    if !is_file(f) {
        return Err(Refusal::Form);
    }
    Ok(Outline {
        rows: word::get(f, 4),
        columns: word::get(f, 8),
        greatest: squares::lower(squares::turn(word::get(f, 12))),
        least: squares::lower(squares::turn(word::get(f, 16))),
    })
}
