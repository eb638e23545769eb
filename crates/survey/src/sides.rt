// The eleven sides, with the depth of each and the most entries that its tree can have.
ghost use Rattle.std.specs.Prelude.{◌≡◌, ◌≤◌};
ghost use Rattle.survey.specs.Sides.{depth_limit, depth_for, side_of};

// The most rows, and the most columns; and the depth of that side.
pub const SIDE_LIMIT: usize = 1024;

pub const DEPTH_LIMIT: usize = 10;

#[derive(Clone, Copy)]
pub struct Side {
    pub side: usize,
    pub depth: usize,
    pub entries: usize,
}

const SIDES: [Side; 11] = [
    Side {
        side: 1,
        depth: 0,
        entries: 0,
    },
    Side {
        side: 2,
        depth: 1,
        entries: 4,
    },
    Side {
        side: 4,
        depth: 2,
        entries: 20,
    },
    Side {
        side: 8,
        depth: 3,
        entries: 84,
    },
    Side {
        side: 16,
        depth: 4,
        entries: 340,
    },
    Side {
        side: 32,
        depth: 5,
        entries: 1364,
    },
    Side {
        side: 64,
        depth: 6,
        entries: 5460,
    },
    Side {
        side: 128,
        depth: 7,
        entries: 21844,
    },
    Side {
        side: 256,
        depth: 8,
        entries: 87380,
    },
    Side {
        side: 512,
        depth: 9,
        entries: 349524,
    },
    Side {
        side: 1024,
        depth: 10,
        entries: 1398100,
    },
];

// The row of the table for a depth, of which the table has eleven.
pub fn of_depth(depth: usize) -> Side
    requires { depth ≤ depth_limit }
    ensures { result ≡ side_of depth }
{
    SIDES[depth]
}

// The depth of the side for so many rows and columns: how many sides are too small for them.
pub fn depth_for(rows: usize, columns: usize) -> usize
    ensures { result ≡ depth_for rows columns }
{
    let n = rows.max(columns);
    SIDES[..DEPTH_LIMIT].iter().filter(|s| s.side < n).count()
}
