// The table of kinds, which says how many children each has and which fields, in which range, and the limits of a test's bytes. The tables
// stand alone, since the formatter lays their numbers out in lines that follow no row.
ghost use Rattle.std.specs.Prelude.{◌≡◌, ◌<◌};
ghost use Rattle.reading.specs.Plan.{kind_entry};

// A row for each kind: children; the largest value of each of the bytes 1 to 7; has a list; has a test.
pub(crate) const KIND_TABLE: [u8; 150] = [
    0, 0, 0, 0, 0, 0, 0, 0, 0, 0, 0, 255, 255, 0, 0, 0, 0, 0, 0, 0, 1, 0, 0, 0, 0, 0, 0, 0, 0, 1,
    1, 0, 0, 0, 0, 0, 0, 0, 1, 0, 1, 0, 0, 0, 0, 0, 0, 0, 1, 0, 2, 0, 0, 0, 0, 0, 0, 0, 0, 0, 2, 0,
    0, 255, 255, 0, 0, 0, 0, 1, 2, 0, 0, 255, 255, 0, 0, 0, 0, 1, 2, 0, 0, 0, 0, 0, 0, 0, 0, 1, 2,
    0, 0, 0, 0, 0, 0, 0, 0, 1, 2, 3, 255, 0, 0, 0, 255, 0, 0, 1, 2, 0, 0, 0, 0, 0, 0, 0, 0, 0, 2,
    3, 255, 255, 255, 5, 255, 0, 0, 1, 1, 3, 255, 255, 255, 5, 255, 0, 0, 1, 1, 1, 0, 0, 0, 0, 0,
    0, 1, 0,
];

// The largest value of each of a test's bytes: no test, then the three forms. A test of version 1 has the first 8 of a row.
pub(crate) const TEST_LIMITS: [u8; 64] = [
    0, 0, 0, 0, 0, 0, 0, 0, 0, 0, 0, 0, 0, 0, 0, 0, 0, 0, 1, 0, 0, 0, 0, 0, 0, 0, 0, 0, 0, 0, 0, 0,
    1, 5, 1, 255, 255, 0, 0, 0, 0, 0, 0, 0, 0, 0, 0, 0, 2, 5, 1, 255, 255, 255, 255, 255, 255, 255,
    255, 255, 0, 0, 0, 0,
];

pub(crate) fn kind_entry(kind: usize, j: usize) -> u8
    requires { (kind < 15) × (j < 10) }
    ensures { result ≡ kind_entry kind j }
{
    KIND_TABLE[10 * kind + j]
}
