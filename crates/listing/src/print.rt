// The listing's lines, on standard output. What cannot be printed is lost, and the program goes on.
ghost use Rattle.std.specs.Prelude.{◌*◌, ◌≤◌, length};

use crate::cell::cell_shown;

pub(crate) fn show_refusal(rt: &impl Print, refusal: u8) {
    let _ = println!(rt; "refused {refusal}");
}

// Prints the number of steps, and for each its rule and the place before it.
pub(crate) fn show_steps(rt: &impl Print, steps: &[u8], count: usize)
    requires { 2 * count ≤ length steps.now }
{
    let _ = println!(rt; "steps {count}");
    for i in 0..count {
        let rule = steps[2 * i];
        let place = steps[2 * i + 1];
        let _ = println!(rt; "U{rule} {place}");
    }
}

// Parts the cell at a place in its row from the one before it.
fn part(rt: &impl Print, i: usize) {
    if 0 < i {
        let _ = print!(rt; " ");
    }
}

// Prints the cells of a row, parted by spaces. A row of no columns is an empty line.
fn show_row(rt: &impl Print, row: &[i64]) {
    for (i, &code) in row.iter().enumerate() {
        part(rt, i);
        let shown = cell_shown(code);
        let _ = print!(rt; "{shown}");
    }
    let _ = println!(rt);
}

// Prints a report's counts, and its rows.
pub(crate) fn show_report(rt: &impl Print, codes: &[i64], rows: usize, columns: usize)
    requires { rows * columns ≤ length codes.now }
{
    let _ = println!(rt; "rows {rows} columns {columns}");
    for i in 0..rows {
        let at = i * columns;
        show_row(rt, &codes[at..at + columns]);
    }
}
