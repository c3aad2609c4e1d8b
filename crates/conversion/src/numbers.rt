// The code of a cell's word in each version, and bytes written at a place.
ghost use Rattle.std.specs.Prelude.{true, ◌≡◌, ◌+◌, ◌≤◌, length};
ghost use Rattle.reading.specs.Versions.{cell_size, unsigned_code};
ghost use Rattle.reading.specs.TableSet.{cell_allowed};
ghost use Rattle.reading.specs.Encoding.{number_bytes};
ghost use Rattle.reading.specs.declared.version.Version.TheVariants.{First};
ghost use Rattle.conversion.specs.Helpers.{bytes_written};

use reading::version::{Version, cell_size};

// Version 1's code of a word that it has room for: blank and off scale have codes of their own, and a number's code is its low four bytes.
fn first_code(w: u64) -> u64
    requires { cell_allowed First w ≡ true }
    ensures { result ≡ unsigned_code First w }
{
    match w {
        0 => 2147483648,
        18446744073709551615 => 2147483647,
        _ => w % 4294967296,
    }
}

// The code, without its sign, of a word that the version has room for. Version 2's is half the range away, as a sum that wraps.
pub(crate) fn code_of(version: Version, w: u64) -> u64
    requires { cell_allowed version w ≡ true }
    ensures { result ≡ unsigned_code version w }
{
    match version {
        Version::First => first_code(w),
        Version::Second => w.wrapping_add(9223372036854775808),
    }
}

// Writes bytes from a place on: a name for the library's copy, since six contracts speak of `bytes_written`.
pub(crate) fn write_bytes(out: &mut [u8], at: usize, bytes: &[u8])
    requires { at + length bytes.now ≤ length out.old }
    ensures { out.new ≡ bytes_written out.old at bytes.now }
{
    out[at..at + bytes.len()].copy_from_slice(bytes);
}

// Writes a cell, given as its word, from a place on.
pub(crate) fn write_number(version: Version, out: &mut [u8], at: usize, w: u64)
    requires { (cell_allowed version w ≡ true) × (at + cell_size version ≤ length out.old) }
    ensures { out.new ≡ bytes_written out.old at (number_bytes version w) }
{
    let bytes = code_of(version, w).to_le_bytes();
    let n = cell_size(version);
    write_bytes(out, at, &bytes[0..n]);
}
