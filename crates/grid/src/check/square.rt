// A square of the grid, and where its entries stand in the lists.
ghost use Rattle.std.specs.Prelude.{◌≡◌, ◌+◌, ◌*◌, ◌-◌, ◌/◌, ◌%◌, ◌^◌, ◌≤◌, ◌<◌};
ghost use Rattle.survey.specs.Raster.{side_limit};
ghost use Rattle.survey.specs.Sides.{depth_limit};

// The square of so many halvings in a row and a column of such squares, and its place in T and Lmax.
#[derive(Clone, Copy)]
pub struct Square {
    pub depth: usize,
    pub row: usize,
    pub column: usize,
    pub place: usize,
    pub ghost within: { (depth ≤ depth_limit) × (row < 2 * side_limit) × (column < 2 * side_limit) },
}

impl Square {
    // Quarter i, where the first one stands at `first`. That the square has quarters is asked here and by `Grid::quarters`, the one caller: a type for such
    // squares would be made there and taken apart here.
    pub fn quarter(self, i: usize, first: usize) -> Square
        requires open { (0 < self.depth) × (self.row < side_limit) × (self.column < side_limit) }
        requires place { (i < 4) × (first < 2 ^ 40) }
        ensures depth { result.depth ≡ self.depth - 1 }
        ensures row { result.row ≡ 2 * self.row + i / 2 }
        ensures column { result.column ≡ 2 * self.column + i % 2 }
        ensures place { result.place ≡ first + i }
    {
        Square {
            depth: self.depth - 1,
            row: 2 * self.row + i / 2,
            column: 2 * self.column + i % 2,
            place: first + i,
        }
    }
}
