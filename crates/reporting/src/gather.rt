// The four aggregates.
ghost use Rattle.std.specs.Prelude.{◌≡◌, cond, ◌||◌, [], ℕ, ◌+◌, ◌*◌, ◌-◌, ◌≤◌, ◌<◌, max, ltb, length, drop};
ghost use Rattle.algebra.specs.Cells.{blank, sum_of};
ghost use Rattle.reading.specs.Tree.{aggregate_by, operator_of};
ghost use Rattle.reporting.specs.Held.{held_in, RowsInside, Indexed};
ghost use Rattle.reporting.specs.Known.{Shared, Known};
ghost use Rattle.reporting.specs.Rows.{aggregate_in};
ghost use Rattle.reporting.specs.Sides.{found_cell};
ghost use Rattle.reporting.specs.Tallies.{Tallies, Bounded, lesser, added, tallied};

use crate::cells::is_number;
use crate::held::HeldRows;
use crate::index::{KeyIndex, bucket, first_linked};
use crate::side::{Found, side_cell};
use crate::test::{linked_meets, row_meets};
use reading::kinds::Kind;
use reading::plan::{AggregateKind, Node};
use reading::set::number_word;

// What the measured cells of the rows that passed so far come to: how many rows; of those with no blank how many, their sum, the least
// and the greatest; and whether one is off scale. The sum of 4,096 cells can take 76 bits, so those of the cells' lower and of their upper
// halves are kept apart.
#[derive(Clone, Copy)]
pub struct Tally {
    pub rows: usize,
    pub numbers: usize,
    pub low: u64,
    pub high: u64,
    pub least: u64,
    pub greatest: u64,
    pub off: bool,
}

// ---- One cell more

// The least of one cell more; with no cell before it, that cell.
fn lesser_cell(numbers: usize, least: u64, cell: u64) -> u64
    ensures { result ≡ lesser numbers least cell }
{
    if numbers == 0 { cell } else { cell.min(least) }
}

// The cell of a sum. So many rows passed, so many of their cells are not blank, and the halves of these add up to low and high: blank where
// a cell is blank, else off scale where the exact total leaves the range. The upper halves, with what the lower ones carry, are compared
// first: where they are less than 2^21 from those of as many zeros, the total's cell fits.
fn sum_cell(rows: usize, numbers: usize, low: u64, high: u64) -> u64
    requires { (numbers ≤ 4096) × (low ≤ 17592186040320) × (high ≤ 17592186040320) }
    ensures { result ≡ cond (ltb numbers rows) blank (sum_of numbers (low + 4294967296 * high)) }
{
    if numbers < rows {
        return 0;
    }
    let upper = high + low / 4294967296;
    let zeros = numbers as u64 * 2147483648;
    if upper + 2097152 < zeros {
        return 18446744073709551615;
    }
    if zeros + 2097152 < upper {
        return 18446744073709551615;
    }
    let cell = (upper + 2147483648 - zeros) * 4294967296 + low % 4294967296;
    if number_word(cell) {
        return cell;
    }
    18446744073709551615
}

impl Tally {
    // The tally of no rows.
    fn none() -> Tally
        ensures { Tallies [] result × Bounded result }
    {
        Tally {
            rows: 0,
            numbers: 0,
            low: 0,
            high: 0,
            least: 0,
            greatest: 0,
            off: false,
        }
    }

    // One row more, of which this cell is measured.
    fn add(self, cell: u64) -> Tally
        requires { (self.rows < 4096) × Bounded self }
        ensures { (result ≡ added self cell) × Bounded result }
    {
        if cell == 0 {
            return Tally {
                rows: self.rows + 1,
                ..self
            };
        }
        Tally {
            rows: self.rows + 1,
            numbers: self.numbers + 1,
            low: self.low + cell % 4294967296,
            high: self.high + cell / 4294967296,
            least: lesser_cell(self.numbers, self.least, cell),
            greatest: cell.max(self.greatest),
            off: cell == 18446744073709551615 || self.off,
        }
    }

    // The aggregate of the rows that passed.
    fn result(self, aggregate: AggregateKind) -> u64
        requires { (self.rows ≤ 4096) × Bounded self }
        ensures { (column : ℕ) → result ≡ tallied (aggregate_by aggregate column) self }
    {
        if let AggregateKind::Count = aggregate {
            return 9223372036854775808 + (self.rows as u64);
        }
        if self.off {
            return 18446744073709551615;
        }
        match aggregate {
            AggregateKind::Sum => sum_cell(self.rows, self.numbers, self.low, self.high),
            AggregateKind::Least => self.least,
            _ => self.greatest,
        }
    }
}

// ---- The rows

// The aggregate of a node; a kind without one counts.
pub(crate) fn aggregate_kind(node: Node) -> AggregateKind
    ensures { aggregate_by result node.column ≡ aggregate_in (operator_of node) }
{
    match node.kind {
        Kind::Fold | Kind::Pair | Kind::Group => node.aggregate_kind(),
        _ => AggregateKind::Count,
    }
}

// The aggregate over those of the right rows that the left row at src meets.
pub(crate) fn gather(found: &Found, cells: &[u64], src: usize, right: HeldRows) -> u64
    requires { RowsInside found.now right src cells.now }
    ensures { result ≡ found_cell found.now (drop src cells.now) (held_in right.entry cells.now) }
{
    let v = right.columns.len();
    let mut tally = Tally::none();
    let mut at = right.at;
    for _ in 0..right.count {
        if row_meets(found, cells, src, at) {
            tally = tally.add(side_cell(found.measured, cells, src, at));
        }
        at += v;
    }
    tally.result(found.aggregate)
}

// The same through an index of the right rows: only those of the key's bucket are asked. A blank or off-scale key meets none.
pub(crate) fn gather_linked(
    found: &Found,
    cells: &[u64],
    src: usize,
    right: HeldRows,
    index: KeyIndex,
) -> u64
    requires inside { RowsInside found.now right src cells.now }
    requires indexed { Indexed index found.now right cells.now }
    ensures { result ≡ found_cell found.now (drop src cells.now) (held_in right.entry cells.now) }
{
    let v = right.columns.len();
    let mut tally = Tally::none();
    let key = cells[src + index.keys.left];
    if !is_number(key) {
        return tally.result(found.aggregate);
    }
    let mut h = index.heads[bucket(key)] as usize;
    // along the chain, which no count walks
    while 0 < h {
        let i = h - 1;
        let at = right.at + i * v;
        if linked_meets(found, cells, src, at, index.keys, key) {
            tally = tally.add(side_cell(found.measured, cells, src, at));
        }
        h = index.next[i] as usize;
    }
    tally.result(found.aggregate)
}

// The same where what is asked and measured is the same for every left row: it is worked out once for a key, and kept under the number of
// the first right row with that key, or under their count where no right row has it. 0 is kept for none.
pub(crate) fn gather_known(
    found: &Found,
    cells: &[u64],
    src: usize,
    right: HeldRows,
    index: KeyIndex,
    known: &mut [u64],
) -> u64
    requires inside { RowsInside found.now right src cells.now }
    requires indexed { Indexed index found.now right cells.now }
    requires shared { Shared found.now × Known found.now index.keys.left index.keys.right (held_in right cells.now) known.old }
    ensures value { result ≡ found_cell found.now (drop src cells.now) (held_in right.entry cells.now) }
    ensures known { Known found.now index.entry.keys.left index.entry.keys.right (held_in right.entry cells.now) known.new }
{
    let key = cells[src + index.keys.left];
    let first = first_linked(cells, right, index, key);
    let kept = known[first];
    if 0 < kept {
        return kept;
    }
    let cell = gather_linked(found, cells, src, right, index);
    known[first] = cell;
    cell
}
