// Copying rows of cells.
ghost use Rattle.std.specs.Prelude.{◌≡◌, ◌+◌, ◌≤◌, length, drop};
ghost use Rattle.std.proofs.Math.Seq.{paste};

// Copies w cells down from src to dst; they may overlap. (`copy_within` is this loop too, behind a test of the direction and two calls: for
// a row of a few cells that is slower.)
pub(crate) fn copy_row(cells: &mut [u64], src: usize, dst: usize, w: usize)
    requires dst_le_src { dst ≤ src }
    requires w_in_bounds { src + w ≤ length cells.old }
    ensures { cells.new ≡ paste cells.old dst (drop src cells.old) w }
{
    for i in 0..w {
        cells[dst + i] = cells[src + i];
    }
}
