// A set of tables in another version: whether it can be written, how many bytes it takes, and writing it.
ghost use Rattle.std.specs.Prelude.{true, ◌≡◌, ◌+◌, ◌*◌, ◌≤◌, length};
ghost use Rattle.algebra.specs.Lists.{all, flat_map};
ghost use Rattle.reading.specs.TableSet.{cell_allowed};
ghost use Rattle.reading.specs.Encoding.{number_bytes};
ghost use Rattle.conversion.specs.Bytes.{table_words, table_bytes, set_bytes, set_fits};
ghost use Rattle.conversion.specs.Helpers.{bytes_written, cell_room, Headed};

use crate::numbers::{write_bytes, write_number};
use reading::set::{cell, cell_allowed, columns_of, rows_of, table_cells, table_from, table_mark};
use reading::version::{Version, cell_size, version_at};

// ---- Whether a set can be written

// Whether the version has room for every cell of a table.
fn table_fits(version: Version, table: &[u8]) -> bool
    ensures { result ≡ all (cell_allowed version) (table_words table.now) }
{
    let from = version_at(table);
    let cells = table_cells(table, 0);
    for i in 0..columns_of(table) * rows_of(table) {
        if !cell_allowed(version, cell(from, cells, i)) {
            return false;
        }
    }
    true
}

// Whether the version has room for every cell of the set's tables, scanned or not.
pub(crate) fn set_fits(version: Version, set: &[u8], tables: usize) -> bool
    ensures { result ≡ set_fits version tables set.now }
{
    for t in 0..tables {
        if !table_fits(version, table_from(set, t)) {
            return false;
        }
    }
    true
}

// ---- Its bytes

// How many bytes a table takes in the version.
fn table_size(version: Version, table: &[u8]) -> usize
    requires { 8 ≤ length table.now }
    ensures { (result ≡ length (table_bytes version table.now)) × (result ≤ 133691408) }
{
    let size = cell_size(version);
    8 + size * (columns_of(table) * rows_of(table))
}

// How many bytes the set takes in the version.
pub(crate) fn set_size(version: Version, set: &[u8], tables: usize) -> usize
    requires { (tables ≤ 8) × Headed tables set.now }
    ensures { result ≡ length (set_bytes version tables set.now) }
{
    let mut size = 0;
    for t in 0..tables {
        size += table_size(version, table_from(set, t));
    }
    size
}

// Writes the cells of a table from a place on.
fn write_cells(version: Version, table: &[u8], out: &mut [u8], at: usize)
    requires { (all (cell_allowed version) (table_words table.now) ≡ true) × (at + cell_room version table.now ≤ length out.old) }
    ensures { out.new ≡ bytes_written out.old at (flat_map (number_bytes version) (table_words table.now)) }
{
    let from = version_at(table);
    let cells = table_cells(table, 0);
    let size = cell_size(version);
    let mut place = at;
    for i in 0..columns_of(table) * rows_of(table) {
        write_number(version, out, place, cell(from, cells, i));
        place += size;
    }
}

// Writes a table from a place on: the mark of the version, its columns and rows as they are, and its cells.
fn write_table(version: Version, table: &[u8], out: &mut [u8], at: usize)
    requires { (8 ≤ length table.now) × (all (cell_allowed version) (table_words table.now) ≡ true) × (at + length (table_bytes version table.now) ≤ length out.old) }
    ensures { out.new ≡ bytes_written out.old at (table_bytes version table.now) }
{
    let mark = table_mark(version);
    write_bytes(out, at, &mark);
    write_bytes(out, at + 5, &table[5..8]);
    write_cells(version, table, out, at + 8);
}

// Writes the set to the front of out.
pub(crate) fn write_set(version: Version, set: &[u8], tables: usize, out: &mut [u8])
    requires { Headed tables set.now × (set_fits version tables set.now ≡ true) × (length (set_bytes version tables set.now) ≤ length out.old) }
    ensures { out.new ≡ bytes_written out.old 0 (set_bytes version tables set.now) }
{
    let mut at = 0;
    for t in 0..tables {
        let table = table_from(set, t);
        write_table(version, table, out, at);
        at += table_size(version, table);
    }
}
