// What a section has of the numbers of a list.
ghost use Rattle.std.specs.Prelude.{◌<◌};

// Of the numbers that are at least `from`: the byte of weight `by`, or whether they are at least `by`. Which of the two is a bool, as the definitions
// take it (`view_of`, `size_of`): an enum of two would be turned into one at each of them.
#[derive(Clone, Copy)]
pub struct Part {
    pub bits: bool,
    pub from: u32,
    pub by: u32,
    pub ghost by_positive: { 0 < by },
}

// The five parts of a packed list, in their order.
impl Part {
    pub const FIRST: Part = Part {
        bits: false,
        from: 0,
        by: 1,
    };

    pub const MORE: Part = Part {
        bits: true,
        from: 0,
        by: 256,
    };

    pub const SECOND: Part = Part {
        bits: false,
        from: 256,
        by: 256,
    };

    pub const AGAIN: Part = Part {
        bits: true,
        from: 256,
        by: 65536,
    };

    pub const THIRD: Part = Part {
        bits: false,
        from: 65536,
        by: 65536,
    };
}
