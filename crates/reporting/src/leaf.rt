// Unit and Scan.
ghost use Rattle.std.specs.Prelude.{◌≡◌, map, ◌*◌, ◌/◌, ◌≤◌, length, take};
ghost use Rattle.algebra.specs.Lists.{upward};
ghost use Rattle.reading.specs.TableSet.{columns_of, rows_of, cell_at, table_from, tables_of};
ghost use Rattle.reading.specs.Tree.{operator_of};
ghost use Rattle.reading.specs.declared.version.Version.TheVariants.{Second};
ghost use Rattle.reporting.specs.Evaluation.{leaf_width, leaf_most, TableGiven, LeafGiven};

use reading::kinds::Kind;
use reading::plan::Node;
use reading::set::{cell, columns_of, rows_of, table_cells, table_from, word};
use reading::version::{Version, version_at};

// Writes the first n cells of a table to the front, where the table has that many.
fn words_in(cells: &mut [u64], from: &[u8], n: usize)
    requires { (n ≤ length cells.old) × (n ≤ length from.now / 8) }
    ensures { take n cells.new ≡ map (cell_at Second from.now) (upward n 0) }
{
    for i in 0..n {
        let at = 8 * i;
        cells[i] = word(
            from[at],
            from[at + 1],
            from[at + 2],
            from[at + 3],
            from[at + 4],
            from[at + 5],
            from[at + 6],
            from[at + 7],
        );
    }
}

// Writes the first n cells of a table to the front: those of version 2 that are there eight bytes at once, and all others one by one. Past the
// last cell they are blank. Each call takes version 2 alone, and no table of a set that was accepted is too short; but the rows of a table
// are those of its version.
fn cells_in(version: Version, cells: &mut [u64], from: &[u8], n: usize)
    requires { n ≤ length cells.old }
    ensures { take n cells.new ≡ map (cell_at version from.now) (upward n 0) }
{
    let whole = match version {
        Version::First => 0,
        Version::Second => n.min(from.len() / 8),
    };
    words_in(cells, from, whole);
    for i in whole..n {
        cells[i] = cell(version, from, i);
    }
}

// The rows of table t, at the front.
fn scan(set: &[u8], t: usize, cells: &mut [u64]) -> usize
    requires { rows_of (table_from t set.now) * columns_of (table_from t set.now) ≤ length cells.old }
    ensures { TableGiven (table_from t set.now) result cells.new }
{
    let table = table_from(set, t);
    let rows = rows_of(table);
    let n = rows * columns_of(table);
    cells_in(version_at(table), cells, table_cells(set, t), n);
    rows
}

// The rows of a node with no children, at the front of cells; a kind with children gives none.
pub(crate) fn leaf(set: &[u8], node: Node, cells: &mut [u64]) -> usize
    requires { leaf_most (tables_of set.now) (operator_of node) * leaf_width (tables_of set.now) (operator_of node) ≤ length cells.old }
    ensures { LeafGiven set.now (operator_of node) result cells.new }
{
    match node.kind {
        Kind::Scan => {
            let t = node.arg as usize;
            scan(set, t, cells)
        }
        Kind::Unit | Kind::Other(_) => 1,
        _ => 0,
    }
}
