// Why a call refuses: the paper's table, by name.
ghost use Rattle.std.specs.Prelude.{◌≡◌};
ghost use Rattle.coding.specs.Answers.{number_of};

use std::error::Error;
use std::fmt;

#[derive(Clone, Copy, Debug, PartialEq, Eq, Hash)]
pub enum Refusal {
    // A count is out of its limits, or is not that of what was lent.
    Size,
    // A number or a level is out of range.
    Range,
    // The bytes are not the stored form of anything.
    Form,
    // The window is not within the grid.
    Window,
    // The band is empty.
    Band,
    // Too little room, with the room needed.
    Room(usize),
    // The text is not one of a grid.
    Text,
    // There is no such entry.
    Entry,
}

impl Refusal {
    // The number that the paper, and C, know the refusal by.
    pub fn number(self) -> u32
        ensures { result ≡ number_of self }
    {
        match self {
            Refusal::Size => 1,
            Refusal::Range => 2,
            Refusal::Form => 3,
            Refusal::Window => 4,
            Refusal::Band => 5,
            Refusal::Room(_) => 6,
            Refusal::Text => 7,
            Refusal::Entry => 8,
        }
    }
}

impl fmt::Display for Refusal {
    fn fmt<W: fmt::Write>(&self, f: &mut fmt::Formatter<W>) -> fmt::Result {
        match self {
            Refusal::Size => write!(f, "a count is out of its limits"),
            Refusal::Range => write!(f, "a number is out of range"),
            Refusal::Form => write!(f, "not a stored form"),
            Refusal::Window => write!(f, "the window is not within the grid"),
            Refusal::Band => write!(f, "the band is empty"),
            Refusal::Room(need) => write!(f, "too little room: {need} are needed"),
            Refusal::Text => write!(f, "not the text of a grid"),
            Refusal::Entry => write!(f, "no such entry"),
        }
    }
}

impl Error for Refusal {}
