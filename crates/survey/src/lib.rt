// What the calls on grids return, and the table of sides. The definitions of paper 01 stand in specs/.
#![tactic(auto)]

pub mod sides;

ghost use Rattle.std.specs.Prelude.{◌≡◌};
ghost use Rattle.survey.specs.Answers.{as_heading, as_level};

use coding::refusal::Refusal;

// What the test of a grid finds: its rows, columns, and greatest and least level.
#[derive(Clone, Copy, Debug, PartialEq, Eq)]
pub struct Outline {
    pub rows: u32,
    pub columns: u32,
    pub greatest: i32,
    pub least: i32,
}

// An outline in the shape that C needs: beside a refusal's number, or 0.
#[repr(C)]
#[derive(Clone, Copy, Debug, PartialEq, Eq)]
pub struct Heading {
    pub refusal: u32,
    pub rows: u32,
    pub columns: u32,
    pub greatest: i32,
    pub least: i32,
}

impl From<Result<Outline, Refusal>> for Heading {
    ghost from_gives = { λ r h. h ≡ as_heading r };

    fn from(found: Result<Outline, Refusal>) -> Heading {
        match found {
            Ok(outline) => Heading {
                refusal: 0,
                rows: outline.rows,
                columns: outline.columns,
                greatest: outline.greatest,
                least: outline.least,
            },
            Err(refusal) => Heading {
                refusal: refusal.number(),
                rows: 0,
                columns: 0,
                greatest: 0,
                least: 0,
            },
        }
    }
}

// The level of a cell in the shape that C needs: beside a refusal's number, or 0.
#[repr(C)]
#[derive(Clone, Copy, Debug, PartialEq, Eq)]
pub struct Level {
    pub refusal: u32,
    pub level: i32,
}

impl From<Result<i32, Refusal>> for Level {
    ghost from_gives = { λ r l. l ≡ as_level r };

    fn from(found: Result<i32, Refusal>) -> Level {
        match found {
            Ok(level) => Level { refusal: 0, level },
            Err(refusal) => Level {
                refusal: refusal.number(),
                level: 0,
            },
        }
    }
}

// The summary of a window in the shape that C needs: beside a refusal's number, or 0.
#[repr(C)]
#[derive(Clone, Copy, Debug, PartialEq, Eq)]
pub struct Totals {
    pub refusal: u32,
    pub count: u64,
    pub sum: i64,
    pub greatest: i32,
    pub least: i32,
    pub mean: i32,
}
