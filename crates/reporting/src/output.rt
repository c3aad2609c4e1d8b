// The user's buffers: signed codes written to the output, and scratch set to zero.
ghost use Rattle.std.specs.Prelude.{◌≡◌, ◌++◌, map, ◌≤◌, length, drop, replicate};
ghost use Rattle.reporting.specs.Report.{code_of};

// The signed code of a cell.
pub fn code(cell: u64) -> i64
    ensures { result ≡ code_of cell }
{
    cell.wrapping_sub(1 << 63).cast_signed()
}

// The codes of cells, at the front of out.
pub(crate) fn write_codes(cells: &[u64], out: &mut [i64])
    requires { length cells.now ≤ length out.old }
    ensures { out.new ≡ map code_of cells.now ++ drop (length cells.now) out.old }
{
    for (i, &cell) in cells.iter().enumerate() {
        out[i] = code(cell);
    }
}

// Zero in each cell.
pub fn clear(cells: &mut [u64])
    ensures { cells.new ≡ replicate (length cells.old) 0 }
{
    cells.fill(0);
}
