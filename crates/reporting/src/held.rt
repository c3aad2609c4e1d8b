// Rows that stand in cells.
ghost use Rattle.std.specs.Prelude.{◌≤◌, length};

// So many rows of these columns, one behind the other from a place on.
#[derive(Clone, Copy)]
pub struct HeldRows<'a> {
    pub at: usize,
    pub count: usize,
    pub columns: &'a [u8],
    pub ghost few: { count ≤ 4096 },
    pub ghost narrow: { length columns.now ≤ 32 },
}
