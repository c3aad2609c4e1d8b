// What one left row gives, for each kind with two children. The row stands at src; what it gives is written at dst, and ends before the row
// begins.
ghost use Rattle.std.specs.Prelude.{◌≡◌, true, [], ◌∷◌, ◌++◌, ◌+◌, ◌*◌, ◌≤◌, max, length, drop, replicate};
ghost use Rattle.algebra.specs.Lists.{any};
ghost use Rattle.reporting.specs.Asked.{LookupFor, RowRoom, RowGiven};
ghost use Rattle.reporting.specs.Keys.{keeps_rows};
ghost use Rattle.reporting.specs.Held.{held_in, HeldWithin, RowsInside};
ghost use Rattle.reporting.specs.Rows.{row_at, rows_from, Gives};
ghost use Rattle.reporting.specs.Sides.{meets, found_cell, keeps_row};
ghost use Rattle.reporting.specs.Written.{Written, joined_rows, JoinGiven, EachGiven};

use crate::asked::{Asked, Lookup};
use crate::gather::{gather, gather_known, gather_linked};
use crate::held::HeldRows;
use crate::rows::copy_row;
use crate::test::{any_linked, any_row};
use reading::kinds::Kind;

// Writes n blanks at a place.
pub(crate) fn blanks(cells: &mut [u64], at: usize, n: usize)
    requires { at + n ≤ length cells.old }
    ensures { Written at n (replicate n 0) cells.old cells.new }
{
    cells[at..at + n].fill(0);
}

// The row of w cells at src joined to each of k rows of v cells at `behind`, at the front.
fn join_rows(cells: &mut [u64], src: usize, w: usize, behind: usize, k: usize, v: usize)
    requires { (k * (w + v) ≤ src) × (src + w ≤ behind) × (behind + k * v ≤ length cells.old) }
    ensures gives { Gives (joined_rows (row_at src w cells.old) (rows_from behind k v cells.old)) (w + v) k k cells.new }
    ensures cells_unchanged { drop (k * (w + v)) cells.new ≡ drop (k * (w + v)) cells.old }
{
    let mut from = behind;
    let mut to = 0;
    for _ in 0..k {
        copy_row(cells, src, to, w);
        copy_row(cells, from, to + w, v);
        from += v;
        to += w + v;
    }
}

// The same, at dst.
fn join_at(cells: &mut [u64], src: usize, w: usize, dst: usize, right: HeldRows)
    requires { (dst + right.count * (w + length right.columns.now) ≤ src) × (src + w ≤ right.at) × HeldWithin right (length cells.old) }
    ensures { JoinGiven src w dst right.entry.at right.entry.count (length right.entry.columns.now) cells.old cells.new }
{
    join_rows(
        &mut cells[dst..],
        src - dst,
        w,
        right.at - dst,
        right.count,
        right.columns.len(),
    );
}

// The same; with no right row, once, with blanks.
fn each_row(cells: &mut [u64], src: usize, w: usize, dst: usize, right: HeldRows) -> usize
    requires { (dst + max 1 right.count * (w + length right.columns.now) ≤ src) × (src + w ≤ right.at) × HeldWithin right (length cells.old) }
    ensures { EachGiven right.entry.columns.now src w dst right.entry.at right.entry.count cells.old result cells.new }
{
    // With so many right rows or more each is joined. The number has a name, so that an edit of it alone is refused (must-fail, each_of_none).
    let least = 1;
    if least <= right.count {
        join_at(cells, src, w, dst, right);
        return right.count;
    }
    copy_row(cells, src, dst, w);
    blanks(cells, dst + w, right.columns.len());
    1
}

// The aggregate over those of the right rows that the left row at src meets.
#[inline(always)]
fn aggregate(asked: &Asked, lookup: Lookup, cells: &[u64], src: usize, known: &mut [u64]) -> u64
    requires inside { RowsInside asked.now.found asked.now.right src cells.now }
    requires lookup { LookupFor lookup asked.now cells.now known.old }
    ensures value { result ≡ found_cell asked.now.found (drop src cells.now) (held_in asked.now.right cells.now) }
    ensures lookup { LookupFor lookup.entry asked.now cells.now known.new }
{
    match lookup {
        Lookup::All => gather(&asked.found, cells, src, asked.right),
        Lookup::ByKey(index) => gather_linked(&asked.found, cells, src, asked.right, index),
        Lookup::Kept(index) => gather_known(&asked.found, cells, src, asked.right, index, known),
    }
}

// Whether the left row at src meets some right row. Aggregates that are kept count the right rows that are met, and 9223372036854775808 is
// the number 0. The arms are those of `aggregate`, and the calls are others: one function over both would be longer.
#[inline(always)]
fn meets_some(asked: &Asked, lookup: Lookup, cells: &[u64], src: usize, known: &mut [u64]) -> bool
    requires keeps { keeps_rows asked.now.node.kind ≡ true }
    requires inside { RowsInside asked.now.found asked.now.right src cells.now }
    requires lookup { LookupFor lookup asked.now cells.now known.old }
    ensures value { result ≡ any (meets asked.now.found (drop src cells.now)) (held_in asked.now.right cells.now) }
    ensures lookup { LookupFor lookup.entry asked.now cells.now known.new }
{
    match lookup {
        Lookup::All => any_row(&asked.found, cells, src, asked.right),
        Lookup::ByKey(index) => any_linked(&asked.found, cells, src, asked.right, index),
        Lookup::Kept(index) => {
            gather_known(&asked.found, cells, src, asked.right, index, known) != 9223372036854775808
        }
    }
}

// Whether a Semi, an Anti, a Some or an Every keeps the left row at src; an Every does where it meets no right row under the other not-mark.
#[inline(always)]
fn keeps(asked: &Asked, lookup: Lookup, cells: &[u64], src: usize, known: &mut [u64]) -> bool
    requires keeps { keeps_rows asked.now.node.kind ≡ true }
    requires inside { RowsInside asked.now.found asked.now.right src cells.now }
    requires lookup { LookupFor lookup asked.now cells.now known.old }
    ensures value { result ≡ keeps_row asked.now.node.kind asked.now.found (drop src cells.now) (held_in asked.now.right cells.now) }
    ensures lookup { LookupFor lookup.entry asked.now cells.now known.new }
{
    match asked.node.kind {
        Kind::Every => !any_row(&asked.found.turned(), cells, src, asked.right),
        Kind::Anti => !meets_some(asked, lookup, cells, src, known),
        _ => meets_some(asked, lookup, cells, src, known),
    }
}

// Writes the row at src and a cell behind it at dst.
fn write_with(cells: &mut [u64], src: usize, w: usize, dst: usize, cell: u64)
    requires { (dst + (w + 1) ≤ src) × (src + w ≤ length cells.old) }
    ensures { Written dst (w + 1) (row_at src w cells.old ++ (cell ∷ [])) cells.old cells.new }
{
    copy_row(cells, src, dst, w);
    cells[dst + w] = cell;
}

// What the left row at src gives, written at dst. It is compiled into its callers, which know the lookup, so that no row asks for it.
#[inline(always)]
pub(crate) fn emit_row(
    asked: &Asked,
    lookup: Lookup,
    cells: &mut [u64],
    src: usize,
    dst: usize,
    known: &mut [u64],
) -> usize
    requires room { RowRoom asked.now src dst (length cells.old) }
    requires lookup { LookupFor lookup asked.now cells.old known.old }
    ensures given { RowGiven asked.now src dst cells.old result cells.new }
    ensures lookup { LookupFor lookup.entry asked.now cells.old known.new }
{
    let w = asked.ids.len();
    match asked.node.kind {
        Kind::Cross => {
            join_at(cells, src, w, dst, asked.right);
            asked.right.count
        }
        Kind::Each => each_row(cells, src, w, dst, asked.right),
        Kind::Fold | Kind::Pair => {
            let cell = aggregate(asked, lookup, cells, src, known);
            write_with(cells, src, w, dst, cell);
            1
        }
        _ => {
            if keeps(asked, lookup, cells, src, known) {
                copy_row(cells, src, dst, w);
                return 1;
            }
            0
        }
    }
}
