// What the prize call returns.

// The rows of the table and the club line in pence.
#[derive(Clone, Copy)]
pub struct Prizes {
    pub rows: usize,
    pub club: u64,
}
