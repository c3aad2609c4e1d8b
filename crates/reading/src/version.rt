// The two versions of a set's tables and of a plan, and the sizes that differ between them.
ghost use Rattle.std.specs.Prelude.{◌≡◌, ◌/◌, ◌≤◌};
ghost use Rattle.reading.specs.Bytes.{u16_at};
ghost use Rattle.reading.specs.Versions.{version_of, cell_size, node_size};

use crate::bytes::byte_at;

#[derive(Clone, Copy)]
pub enum Version {
    First,
    Second,
}

// The version that the header of a table or of a plan says; a number that is neither 1 nor 2 is looked at as version 2.
pub fn version_at(s: &[u8]) -> Version
    ensures { result ≡ version_of (u16_at s.now 3) }
{
    if byte_at(s, 3) != 1 {
        return Version::Second;
    }
    if byte_at(s, 4) != 0 {
        return Version::Second;
    }
    Version::First
}

// The bytes of a cell.
pub fn cell_size(version: Version) -> usize
    ensures value { result ≡ cell_size version }
    ensures upper_bound { result ≤ 8 }
{
    match version {
        Version::First => 4,
        Version::Second => 8,
    }
}

// The bytes of a node.
pub fn node_size(version: Version) -> usize
    ensures value { result ≡ node_size version }
    ensures lower_bound { (24 ≤ result) × (result ≤ 32) }
{
    match version {
        Version::First => 24,
        Version::Second => 32,
    }
}

// How many nodes n bytes hold.
pub(crate) fn nodes_in(version: Version, n: usize) -> usize
    ensures { result ≡ n / node_size version }
{
    match version {
        Version::First => n / 24,
        Version::Second => n / 32,
    }
}
