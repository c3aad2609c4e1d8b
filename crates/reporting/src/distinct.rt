// Distinct: the first occurrence of each row.
ghost use Rattle.std.specs.Prelude.{◌≡◌, ◌+◌, ◌*◌, ◌≤◌, ◌<◌, length, take, drop, replicate};
ghost use Rattle.algebra.specs.Lists.{same, any, firsts};
ghost use Rattle.reporting.specs.Index.{row_slot, downward, Index};
ghost use Rattle.reporting.specs.Rows.{chunk, Gives};

use crate::index::{FEW, hash_row, link};
use crate::rows::copy_row;

// Whether two rows agree.
fn same_row(a: &[u64], b: &[u64]) -> bool
    requires { length a.now ≡ length b.now }
    ensures { result ≡ same a.now b.now }
{
    a == b
}

// Whether one of the first k rows is the row at src.
fn seen(cells: &[u64], k: usize, src: usize, w: usize) -> bool
    requires { (k * w ≤ length cells.now) × (src + w ≤ length cells.now) }
    ensures { result ≡ any (λ q. same q (take w (drop src cells.now))) (chunk k w cells.now) }
{
    for i in 0..k {
        let at = i * w;
        if same_row(&cells[at..at + w], &cells[src..src + w]) {
            return true;
        }
    }
    false
}

// A chain that is longer than this is not walked to its end: looking at all rows, which lie side by side, is then quicker.
const LONG_CHAIN: usize = 8;

// Whether one of the first k rows, which are indexed, is the row at src, whose bucket is b.
fn seen_linked(
    cells: &[u64],
    k: usize,
    src: usize,
    w: usize,
    b: usize,
    heads: &[u16],
    next: &[u16],
) -> bool
    requires w_in_bounds { (k * w ≤ length cells.now) × (src + w ≤ length cells.now) }
    requires b_bound { (b < 4096) × (b ≡ row_slot (take w (drop src cells.now))) }
    requires heads_len { (length heads.now ≡ 4096) × (k ≤ length next.now) }
    requires index { Index row_slot (chunk k w cells.now) (downward k) heads.now next.now }
    ensures { result ≡ any (λ q. same q (take w (drop src cells.now))) (chunk k w cells.now) }
{
    let mut h = heads[b] as usize;
    let mut steps = 0;
    // along the chain, which no count walks
    while 0 < h {
        if steps == LONG_CHAIN {
            return seen(cells, k, src, w);
        }
        steps += 1;
        let i = h - 1;
        let at = i * w;
        if same_row(&cells[at..at + w], &cells[src..src + w]) {
            return true;
        }
        h = next[i] as usize;
    }
    false
}

// Keeps the first occurrence of each of m rows at the front, in place: each row is compared with all rows that are kept.
fn distinct_all(cells: &mut [u64], m: usize, w: usize) -> usize
    requires { m * w ≤ length cells.old }
    ensures gives { Gives (firsts (chunk m w cells.old)) w m result cells.new }
    ensures cells_unchanged { drop (m * w) cells.new ≡ drop (m * w) cells.old }
{
    let mut out = 0;
    for i in 0..m {
        let src = i * w;
        if !seen(cells, out, src, w) {
            copy_row(cells, src, out * w, w);
            out += 1;
        }
    }
    out
}

// The same through an index of the rows that are kept: each row is compared with those of its bucket.
fn distinct_indexed(cells: &mut [u64], m: usize, w: usize) -> usize
    requires { (m ≤ 4096) × (m * w ≤ length cells.old) }
    ensures gives { Gives (firsts (chunk m w cells.old)) w m result cells.new }
    ensures cells_unchanged { drop (m * w) cells.new ≡ drop (m * w) cells.old }
{
    let mut heads = [0u16; 4096];
    let mut next = [0u16; 4096];
    let mut out = 0;
    for i in 0..m {
        let src = i * w;
        let b = hash_row(&cells[src..src + w]);
        if !seen_linked(cells, out, src, w, b, &heads, &next) {
            copy_row(cells, src, out * w, w);
            link(&mut heads, &mut next, b, out);
            out += 1;
        }
    }
    out
}

// Keeps the first occurrence of each of m rows at the front, in place. Few rows are compared with each other sooner than an index is made.
pub(crate) fn distinct_front(cells: &mut [u64], m: usize, w: usize) -> usize
    requires { m * w ≤ length cells.old }
    ensures gives { Gives (firsts (chunk m w cells.old)) w m result cells.new }
    ensures cells_unchanged { drop (m * w) cells.new ≡ drop (m * w) cells.old }
{
    if m < FEW {
        return distinct_all(cells, m, w);
    }
    if 4096 < m {
        return distinct_all(cells, m, w);
    }
    distinct_indexed(cells, m, w)
}
