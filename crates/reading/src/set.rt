// The set of tables: reading it, and finding a table's cells in it.
ghost use Rattle.std.specs.Prelude.{◌≡◌, ◌+◌, ◌*◌, ◌≤◌, length, drop, [], ◌∷◌};
ghost use Rattle.algebra.specs.Cells.{in_range, within_reach};
ghost use Rattle.reading.specs.Bytes.{unsigned_at};
ghost use Rattle.reading.specs.Versions.{cell_size, reach_of, word_of};
ghost use Rattle.reading.specs.declared.version.Version.{Version};
ghost use Rattle.reading.specs.declared.version.Version.TheVariants.{First, Second};
ghost use Rattle.reading.specs.TableSet.{table_mark, columns_of, rows_of, cell_bytes, cells_of, cell_at, cell_allowed, cells_allowed, size_allowed, read_table, read_set_as, table_from};

use crate::bytes::{byte_at, head, starts_with, tail};
use crate::refusal::Refusal;
use crate::version::{Version, cell_size, version_at};

const FIRST_MARK: [u8; 5] = [84, 66, 76, 1, 0];

const SECOND_MARK: [u8; 5] = [84, 66, 76, 2, 0];

// ---- Cells

// The word of a version 1 cell's four bytes: its number plus 2^63, 0 for blank, 2^64 - 1 for off scale.
pub fn word_of_four(b0: u8, b1: u8, b2: u8, b3: u8) -> u64
    ensures { result ≡ word_of First (unsigned_at 4 (b0 ∷ b1 ∷ b2 ∷ b3 ∷ []) 0) }
{
    let x = u32::from_le_bytes([b0, b1, b2, b3]);
    if x == 2147483648 {
        return 0;
    }
    if x == 2147483647 {
        return 18446744073709551615;
    }
    x.wrapping_add(2147483648) as u64 + 9223372034707292160
}

// The word of a version 2 cell's eight bytes: its signed code plus 2^63.
#[inline(always)]
pub fn word(b0: u8, b1: u8, b2: u8, b3: u8, b4: u8, b5: u8, b6: u8, b7: u8) -> u64
    ensures { result ≡ word_of Second (unsigned_at 8 (b0 ∷ b1 ∷ b2 ∷ b3 ∷ b4 ∷ b5 ∷ b6 ∷ b7 ∷ []) 0) }
{
    u64::from_le_bytes([b0, b1, b2, b3, b4, b5, b6, b7]).wrapping_add(9223372036854775808)
}

// How a version holds a cell. What walks cells is compiled for each format, so that no cell asks for the version.
trait CellFormat {
    ghost VERSION: { Version };

    const VERSION: Version;

    // The word of the cell whose bytes begin at a place.
    fn word_at(cells: &[u8], at: usize) -> u64
        requires { at + cell_size VERSION ≤ length cells.now }
        ensures { result ≡ word_of VERSION (unsigned_at (cell_size VERSION) cells.now at) };
}

struct FirstCells;

struct SecondCells;

impl CellFormat for FirstCells {
    ghost VERSION = { First };

    const VERSION: Version = Version::First;

    fn word_at(cells: &[u8], at: usize) -> u64 {
        word_of_four(cells[at], cells[at + 1], cells[at + 2], cells[at + 3])
    }
}

impl CellFormat for SecondCells {
    ghost VERSION = { Second };

    const VERSION: Version = Version::Second;

    fn word_at(cells: &[u8], at: usize) -> u64 {
        word(
            cells[at],
            cells[at + 1],
            cells[at + 2],
            cells[at + 3],
            cells[at + 4],
            cells[at + 5],
            cells[at + 6],
            cells[at + 7],
        )
    }
}

// The word of cell i of a table's cells of this format; past the last cell it is blank, 0.
#[inline(always)]
fn cell_of<F: CellFormat>(cells: &[u8], i: usize) -> u64
    ensures { result ≡ cell_at F.VERSION cells.now i }
{
    let size = cell_size(F::VERSION);
    if i < cells.len() / size {
        F::word_at(cells, size * i)
    } else {
        0
    }
}

pub fn cell(version: Version, cells: &[u8], i: usize) -> u64
    ensures { result ≡ cell_at version cells.now i }
{
    match version {
        Version::First => cell_of::<FirstCells>(cells, i),
        Version::Second => cell_of::<SecondCells>(cells, i),
    }
}

// Whether a word is that of a number in version 2's range.
#[inline(always)]
pub fn number_word(w: u64) -> bool
    ensures { result ≡ in_range w }
{
    if w < 9214372036854775808 {
        return false;
    }
    w <= 9232372036854775808
}

// Whether a word is that of a number in the version's range.
#[inline(always)]
pub fn number_as(version: Version, w: u64) -> bool
    ensures { result ≡ within_reach (reach_of version) w }
{
    match version {
        Version::First => {
            if w < 9223372034854775808 {
                return false;
            }
            w <= 9223372038854775808
        }
        Version::Second => number_word(w),
    }
}

// Blank, off scale, or a number in the version's range.
#[inline(always)]
pub fn cell_allowed(version: Version, w: u64) -> bool
    ensures { result ≡ cell_allowed version w }
{
    if w == 0 {
        return true;
    }
    if w == 18446744073709551615 {
        return true;
    }
    number_as(version, w)
}

// Whether each of a table's cells of this format has an allowed code.
fn codes_allowed<F: CellFormat>(cells: &[u8]) -> bool
    ensures { result ≡ cells_allowed F.VERSION cells.now }
{
    for i in 0..cells.len() / cell_size(F::VERSION) {
        if !cell_allowed(F::VERSION, cell_of::<F>(cells, i)) {
            return false;
        }
    }
    true
}

fn cells_allowed(version: Version, cells: &[u8]) -> bool
    ensures { result ≡ cells_allowed version cells.now }
{
    match version {
        Version::First => codes_allowed::<FirstCells>(cells),
        Version::Second => codes_allowed::<SecondCells>(cells),
    }
}

// ---- A table, as the bytes from its first one on; its header says its version

pub fn table_mark(version: Version) -> [u8; 5]
    ensures { result ≡ table_mark version }
{
    match version {
        Version::First => FIRST_MARK,
        Version::Second => SECOND_MARK,
    }
}

pub fn columns_of(table: &[u8]) -> usize
    ensures value { result ≡ columns_of table.now }
    ensures upper_bound { result ≤ 255 }
{
    byte_at(table, 5) as usize
}

pub fn rows_of(table: &[u8]) -> usize
    ensures value { result ≡ rows_of table.now }
    ensures upper_bound { result ≤ 65535 }
{
    byte_at(table, 6) as usize + 256 * (byte_at(table, 7) as usize)
}

fn cell_bytes(table: &[u8]) -> usize
    ensures value { result ≡ cell_bytes table.now }
    ensures upper_bound { result ≤ 133691400 }
{
    let size = cell_size(version_at(table));
    size * (columns_of(table) * rows_of(table))
}

fn size_allowed(table: &[u8]) -> bool
    ensures { result ≡ size_allowed table.now }
{
    let columns = columns_of(table);
    if columns < 1 {
        return false;
    }
    if 16 < columns {
        return false;
    }
    rows_of(table) <= 1000
}

// Reads the table that starts at a place of the set, as this version's: how many bytes it has, or a refusal.
fn read_table(version: Version, set: &[u8], at: usize) -> Result<usize, Refusal>
    requires { at ≤ length set.now }
    ensures { result ≡ read_table version (drop at set.now) }
{
    let table = &set[at..];
    if table.len() < 8 {
        return Err(Refusal::TableShort);
    }
    let mark = table_mark(version);
    if !starts_with(table, &mark) {
        return Err(Refusal::TableMark);
    }
    if !size_allowed(table) {
        return Err(Refusal::TableSize);
    }
    let size = 8 + cell_bytes(table);
    if table.len() < size {
        return Err(Refusal::TableShort);
    }
    let a = at + 8;
    let b = at + size;
    if !cells_allowed(version, &set[a..b]) {
        return Err(Refusal::CellCode);
    }
    Ok(size)
}

// ---- The set

// Reads the whole set as this version's: how many tables it has, or a refusal. Each table starts where the last one ended.
pub fn read_set(version: Version, set: &[u8]) -> Result<usize, Refusal>
    ensures { result ≡ read_set_as version set.now }
{
    let mut at = 0;
    let mut found = 0;
    // No count: a step is as long as its table.
    while at < set.len() {
        if found == 8 {
            return Err(Refusal::SetLong);
        }
        at += read_table(version, set, at)?;
        found += 1;
    }
    Ok(found)
}

// The part of the set from table t on; nothing past the last table.
pub fn table_from(set: &[u8], t: usize) -> &[u8]
    ensures { result.now ≡ table_from t set.now }
{
    let mut rest = set;
    for _ in 0..t {
        rest = tail(rest, 8 + cell_bytes(rest));
    }
    rest
}

// The cells of table t, as a part of the set.
pub fn table_cells(set: &[u8], t: usize) -> &[u8]
    ensures { result.now ≡ cells_of (table_from t set.now) }
{
    let table = table_from(set, t);
    let size = cell_bytes(table);
    head(tail(table, 8), size)
}
