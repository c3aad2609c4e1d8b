// What the reporting call returns.

// The report's counts.
#[derive(Clone, Copy)]
pub struct Report {
    pub rows: usize,
    pub columns: usize,
}
