// An index of rows by chains: rows of one bucket are linked, so that the rows with a key are found without a look at all the others.
ghost use Rattle.std.specs.Prelude.{◌≡◌, ◌+◌, ◌*◌, ◌%◌, ◌≤◌, ◌<◌, eqb, length, get_or, set, replicate};
ghost use Rattle.algebra.specs.Lists.{upward};
ghost use Rattle.reporting.specs.Index.{halves, bucket_of, slot_of, row_slot, Index, Linked, before};
ghost use Rattle.reporting.specs.Held.{held_in};
ghost use Rattle.reporting.specs.Rows.{chunk};

use crate::held::HeldRows;
use crate::side::KeyPlaces;

// Rows are indexed from so many on: with fewer, making the index costs more than it saves.
pub(crate) const FEW: usize = 32;

// An index of right rows by their key, with the places of the keys.
#[derive(Clone, Copy)]
pub struct KeyIndex<'a> {
    pub keys: KeyPlaces,
    pub heads: &'a [u16],
    pub next: &'a [u16],
}

// The bucket of a key.
pub(crate) fn bucket(key: u64) -> usize
    ensures { (result < 4096) × (result ≡ bucket_of key) }
{
    let folded = (key % 4294967296 + key / 4294967296) % 4294967296;
    (folded * 2654435761 % 4294967296 / 1048576) as usize
}

// One cell more in the number of a row.
fn mix(h: u32, x: u64) -> u32
    ensures { result ≡ (h * 2654435761 + halves x) % 4294967296 }
{
    ((h as u64 * 2654435761 + (x % 4294967296 + x / 4294967296)) % 4294967296) as u32
}

// The bucket of a row by all its cells.
pub(crate) fn hash_row(row: &[u64]) -> usize
    ensures { (result < 4096) × (result ≡ row_slot row.now) }
{
    let mut h: u32 = 0;
    for cell in row {
        h = mix(h, *cell);
    }
    bucket(h as u64)
}

// Puts row i at the front of the chain of bucket b. Heads and links are two arrays: each row is written into both, and there is no heap.
pub(crate) fn link(heads: &mut [u16], next: &mut [u16], b: usize, i: usize)
    requires { (b < length heads.old) × (i < length next.old) × (i < 65535) }
    ensures heads_after { heads.new ≡ set heads.old b (i + 1) }
    ensures next_after { next.new ≡ set next.old i (get_or heads.old b 0) }
{
    next[i] = heads[b];
    heads[b] = (i + 1) as u16;
}

// Indexes k rows of w cells by their cell at `place`. No chain is there before; rows are put in from the last to the first, so that each chain
// runs in the order of the rows.
pub(crate) fn build(
    rows: &[u64],
    w: usize,
    place: usize,
    k: usize,
    heads: &mut [u16],
    next: &mut [u16],
)
    requires k_bound { (k ≤ 4096) × (place < w) × (k * w ≤ length rows.now) }
    requires heads_value { (heads.old ≡ replicate 4096 0) × (k ≤ length next.old) }
    ensures { Index (slot_of place) (chunk k w rows.now) (upward k 0) heads.new next.new }
{
    for i in (0..k).rev() {
        let b = bucket(rows[i * w + place]);
        link(heads, next, b, i);
    }
}

// The number of the first indexed row with this cell at the right key's place; the count of all where there is none.
pub(crate) fn first_linked(cells: &[u64], rows: HeldRows, index: KeyIndex, key: u64) -> usize
    requires inside { (index.keys.right < length rows.columns.now) × (rows.at + rows.count * length rows.columns.now ≤ length cells.now) }
    requires linked { Linked index.keys.right rows.count (held_in rows cells.now) index.heads.now index.next.now }
    ensures { result ≡ before (λ q. eqb (get_or q index.entry.keys.right 0) key) (held_in rows.entry cells.now) }
{
    let w = rows.columns.len();
    let mut h = index.heads[bucket(key)] as usize;
    // along the chain, which no count walks
    while 0 < h {
        let i = h - 1;
        if cells[rows.at + i * w + index.keys.right] == key {
            return i;
        }
        h = index.next[i] as usize;
    }
    rows.count
}
