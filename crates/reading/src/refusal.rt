// What a call turns its input back for. Each has a number, by which the callers in C and the definition know it.
ghost use Rattle.std.specs.Prelude.{◌≡◌};
ghost use Rattle.reading.specs.Refusals.{refusal_number};

#[derive(Clone, Copy, Debug, PartialEq, Eq)]
pub enum Refusal {
    // a table is cut short: in its header or, once its mark and its size are past, in its cells
    TableShort = 1,
    // a table's letters or version
    TableMark = 2,
    // a table's number of columns or rows
    TableSize = 3,
    // a cell's code
    CellCode = 4,
    // bytes after eight tables
    SetLong = 5,
    // the plan is shorter than its header, or its length is not that of its nodes
    PlanLength = 6,
    // the plan's letters or version
    PlanMark = 7,
    // the number of nodes
    NodeCount = 8,
    // a byte that the kind does not use and that is not 0, or a field out of its range
    NodeField = 9,
    // a child is missing, or nodes are left over
    Tree = 10,
    // no such table
    NoTable = 11,
    // an id is repeated, exceeds 255, or is not in view
    Id = 12,
    // a row of more than 32 columns
    RowWide = 13,
    // a bound above 4,096
    BoundHigh = 14,
    // an output is short
    OutputShort = 15,
    // scratch is short
    ScratchShort = 16,
    // the purse is out of its range, there are no shares or more than 20, or they do not sum to 10,000
    Shares = 17,
    // a prize fund table of a report that has fewer than two columns
    FewColumns = 18,
    // a list of steps has an odd length, or a rule outside 1 to 8
    StepList = 20,
    // a step does not fit in its turn, or the plan left is not theirs
    StepUnfit = 21,
    // a number that does not fit version 1, on the way down
    NumberWide = 25,
}

impl From<Refusal> for u8 {
    ghost from_gives = { λ r n. n ≡ refusal_number r };

    fn from(refusal: Refusal) -> u8 {
        refusal as u8
    }
}
