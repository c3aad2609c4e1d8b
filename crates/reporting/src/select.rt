// Select and Project: row by row. What they give is written at the front, over rows that have been read already.
// Rows are read at one place of the lent cells and written at another, so that places and widths stand beside the cells as numbers.
ghost use Rattle.std.specs.Prelude.{◌≡◌, ◌+◌, ◌*◌, ◌-◌, ◌≤◌, length};
ghost use Rattle.algebra.specs.Plans.{test};
ghost use Rattle.reading.specs.Tree.{form_of};
ghost use Rattle.reporting.specs.Positions.{Inside};
ghost use Rattle.reporting.specs.Written.{CutWritten, PickWritten};
ghost use Rattle.reporting.specs.Evaluation.{SelectGiven, CutsRoom, CutsGiven, PicksGiven};

use crate::env::column;
use crate::places::positions_of;
use crate::rows::copy_row;
use crate::side::find_test;
use crate::test::condition_holds;
use reading::plan::Test;

// Keeps those of m rows at `own` that meet a test under its not-mark, at the front.
pub(crate) fn select(
    negated: bool,
    form: Test,
    cells: &mut [u64],
    own: usize,
    m: usize,
    ids: &[u8],
    env: &[u64],
) -> usize
    requires { (length env.now ≡ 256) × (own + m * length ids.now ≤ length cells.old) }
    ensures { SelectGiven (test negated (form_of form)) ids.now env.now own m cells.old result cells.new }
{
    let w = ids.len();
    let none = [0u8; 0];
    let test = find_test(negated, form, &none, ids, env);
    let mut out = 0;
    for i in 0..m {
        let src = own + i * w;
        if condition_holds(&test, cells, 0, src) {
            copy_row(cells, src, out * w, w);
            out += 1;
        }
    }
    out
}

// Writes the row at src, cut to a list of ids, at dst, where it ends before the row begins.
fn cut_row(cells: &mut [u64], src: usize, dst: usize, ids: &[u8], list: &[u8], env: &[u64])
    requires { (length env.now ≡ 256) × (dst + length list.now ≤ src) × (src + length ids.now ≤ length cells.old) }
    ensures { CutWritten list.now ids.now env.now src dst cells.old cells.new }
{
    let w = ids.len();
    for (j, &id) in list.iter().enumerate() {
        cells[dst + j] = column(ids, &cells[src..src + w], env, id);
    }
}

// The same by the places of the columns, where each id is one.
fn cut_row_at(cells: &mut [u64], src: usize, dst: usize, places: &[u8])
    requires { (dst + length places.now ≤ src) × Inside places.now (length cells.old - src) }
    ensures { PickWritten places.now src dst cells.old cells.new }
{
    for (j, &place) in places.iter().enumerate() {
        cells[dst + j] = cells[src + place as usize];
    }
}

// Each of m rows at `own` cut to a list of ids, at the front.
fn cut_rows(cells: &mut [u64], own: usize, m: usize, ids: &[u8], list: &[u8], env: &[u64]) -> usize
    requires { (length env.now ≡ 256) × CutsRoom (length ids.now) (length list.now) own m (length cells.old) }
    ensures { CutsGiven list.now ids.now env.now own m cells.old result cells.new }
{
    let w = ids.len();
    let n = list.len();
    for i in 0..m {
        cut_row(cells, own + i * w, i * n, ids, list, env);
    }
    m
}

// The same of rows of w cells by the places of the columns, where each id is one.
fn cut_rows_at(cells: &mut [u64], own: usize, m: usize, w: usize, places: &[u8]) -> usize
    requires { Inside places.now w × CutsRoom w (length places.now) own m (length cells.old) }
    ensures { PicksGiven places.now w own m cells.old result cells.new }
{
    let n = places.len();
    for i in 0..m {
        let src = own + i * w;
        cut_row_at(cells, src, i * n, places);
    }
    m
}

// Each of m rows at `own` cut to a list of ids, at the front. Where each id is a column, their places are found once for all rows; of at most
// 7 ids, as many as a node lists, among at most 256 columns.
pub(crate) fn project(
    cells: &mut [u64],
    own: usize,
    m: usize,
    ids: &[u8],
    list: &[u8],
    env: &[u64],
) -> usize
    requires { (length env.now ≡ 256) × CutsRoom (length ids.now) (length list.now) own m (length cells.old) }
    ensures { CutsGiven list.now ids.now env.now own m cells.old result cells.new }
{
    let n = list.len();
    if 7 < n {
        return cut_rows(cells, own, m, ids, list, env);
    }
    if 256 < ids.len() {
        return cut_rows(cells, own, m, ids, list, env);
    }
    let mut places = [0u8; 7];
    let found = positions_of(list, ids, &mut places);
    if found.len() < n {
        return cut_rows(cells, own, m, ids, list, env);
    }
    cut_rows_at(cells, own, m, ids.len(), found)
}
