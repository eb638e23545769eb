// The heading of a file.
ghost use Rattle.std.specs.Prelude.{◌≡◌};
ghost use Rattle.survey.specs.Level.{is_level, turned};
ghost use Rattle.survey.specs.Raster.{in_limits};
ghost use Rattle.grid.specs.Test.{is_headed};

use coding::word;
use survey::sides::SIDE_LIMIT;

// Whether the heading is one of a survey within the limits.
pub fn is_headed(f: &[u8]) -> bool
    ensures { result ≡ is_headed f.now }
{
    20 <= f.len()
        && word::get(f, 0) == 4
        && is_side(word::get(f, 4))
        && is_side(word::get(f, 8))
        && is_level(word::get(f, 12))
        && is_level(word::get(f, 16))
}

// Whether a number of rows or columns is within the limits.
fn is_side(n: u32) -> bool
    ensures { result ≡ in_limits n }
{
    (1..=SIDE_LIMIT).contains(&(n as usize))
}

// Whether the two's complement of a number is that of a level.
fn is_level(w: u32) -> bool
    ensures { result ≡ is_level (turned w) }
{
    squares::is_raised_level(squares::turn(w))
}
