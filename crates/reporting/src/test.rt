// What a node asks of a left row and a right row.
ghost use Rattle.std.specs.Prelude.{◌≡◌, true, ◌+◌, ◌*◌, ◌-◌, ◌≤◌, ◌<◌, length, drop, get_or};
ghost use Rattle.algebra.specs.Cells.{is_number};
ghost use Rattle.algebra.specs.Lists.{any};
ghost use Rattle.reading.specs.Tree.{comparison_of};
ghost use Rattle.reporting.specs.Keys.{has_keys, key_comparison};
ghost use Rattle.reporting.specs.Held.{held_in, RowsInside, Indexed};
ghost use Rattle.reporting.specs.Sides.{condition_holds, ConditionInside, Equals, FoundInside, meets};

use crate::cells::{compare, is_number};
use crate::held::HeldRows;
use crate::index::{KeyIndex, bucket};
use crate::side::{Condition, Found, KeyPlaces, side_cell};
use reading::comparison::Comparison;
use reading::kinds::Kind;

// Whether a kind compares a left key with a right key.
pub(crate) fn has_keys(kind: Kind) -> bool
    ensures { result ≡ has_keys kind }
{
    match kind {
        Kind::Semi | Kind::Anti | Kind::Pair | Kind::Group => true,
        _ => false,
    }
}

// The comparison of keys: = for a Semi and an Anti, the node's for a Pair and a Group.
pub(crate) fn key_comparison(kind: Kind, comparison: Comparison) -> Comparison
    ensures { comparison_of result ≡ key_comparison kind comparison }
{
    match kind {
        Kind::Pair | Kind::Group => comparison,
        _ => Comparison::Equal,
    }
}

// Whether a condition holds of the left row at src and the right row at `at`.
#[inline(always)]
pub(crate) fn condition_holds(condition: &Condition, cells: &[u64], src: usize, at: usize) -> bool
    requires { ConditionInside condition.now (length cells.now - src) (length cells.now - at) }
    ensures { result ≡ condition_holds condition.now (drop src cells.now) (drop at cells.now) }
{
    match condition.compared {
        None => !condition.negated,
        Some(compared) => {
            let a = side_cell(compared.left, cells, src, at);
            let b = side_cell(compared.right, cells, src, at);
            compare(compared.comparison, a, b) != condition.negated
        }
    }
}

// Whether the left row at src and the right row at `at` meet the keys and the test: keys first.
#[inline(always)]
pub(crate) fn row_meets(found: &Found, cells: &[u64], src: usize, at: usize) -> bool
    requires { FoundInside found.now (length cells.now - src) (length cells.now - at) }
    ensures { result ≡ meets found.now (drop src cells.now) (drop at cells.now) }
{
    condition_holds(&found.keys, cells, src, at) && condition_holds(&found.test, cells, src, at)
}

// The same where the keys are compared by = and the left one is known to be a number: the cells are the same.
#[inline(always)]
pub(crate) fn linked_meets(
    found: &Found,
    cells: &[u64],
    src: usize,
    at: usize,
    keys: KeyPlaces,
    key: u64,
) -> bool
    requires found_inside { FoundInside found.now (length cells.now - src) (length cells.now - at) × Equals keys.left keys.right found.now.keys }
    requires key_value { (key ≡ get_or (drop src cells.now) keys.left 0) × (is_number key ≡ true) }
    ensures { result ≡ meets found.now (drop src cells.now) (drop at cells.now) }
{
    cells[at + keys.right] == key && condition_holds(&found.test, cells, src, at)
}

// Whether the left row at src meets some right row. It stops at the first.
pub(crate) fn any_row(found: &Found, cells: &[u64], src: usize, right: HeldRows) -> bool
    requires { RowsInside found.now right src cells.now }
    ensures { result ≡ any (meets found.now (drop src cells.now)) (held_in right.entry cells.now) }
{
    let v = right.columns.len();
    let mut at = right.at;
    for _ in 0..right.count {
        if row_meets(found, cells, src, at) {
            return true;
        }
        at += v;
    }
    false
}

// The same through an index of the right rows: only those of the key's bucket are asked. A blank or off-scale key meets none.
#[inline(always)]
pub(crate) fn any_linked(
    found: &Found,
    cells: &[u64],
    src: usize,
    right: HeldRows,
    index: KeyIndex,
) -> bool
    requires inside { RowsInside found.now right src cells.now }
    requires indexed { Indexed index found.now right cells.now }
    ensures { result ≡ any (meets found.now (drop src cells.now)) (held_in right.entry cells.now) }
{
    let v = right.columns.len();
    let key = cells[src + index.keys.left];
    if !is_number(key) {
        return false;
    }
    let mut h = index.heads[bucket(key)] as usize;
    // along the chain, which no count walks
    while 0 < h {
        let i = h - 1;
        if linked_meets(found, cells, src, right.at + i * v, index.keys, key) {
            return true;
        }
        h = index.next[i] as usize;
    }
    false
}
