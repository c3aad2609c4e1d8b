// Group.
ghost use Rattle.std.specs.Prelude.{◌≡◌, [], ◌∷◌, ◌+◌, ◌*◌, ◌≤◌, ◌<◌, length, take, get_or};
ghost use Rattle.algebra.specs.Lists.{same, any};
ghost use Rattle.reading.specs.Tree.{operator_of};
ghost use Rattle.reading.specs.declared.kinds.Kind.TheVariants.{Group};
ghost use Rattle.reporting.specs.Held.{held_in, HeldWithin, Indexed};
ghost use Rattle.reporting.specs.Rows.{chunk, rows_from, env_of, acted, Gives};
ghost use Rattle.reporting.specs.Sides.{side_cell, SideInside, Equals, FoundInside};
ghost use Rattle.reporting.specs.Grouping.{grouped_by, KeyWritten};

use crate::gather::{gather, gather_linked};
use crate::held::HeldRows;
use crate::index::{FEW, KeyIndex, build, first_linked};
use crate::places::place_of;
use crate::side::{Found, KeyPlaces, Side, find, key_places, side_cell, side_of};
use reading::plan::Node;

// Whether one of the first k rows, of two cells each, has this key as its first cell.
fn key_given(cells: &[u64], k: usize, key: u64) -> bool
    requires { k * 2 ≤ length cells.now }
    ensures { result ≡ any (λ q. same (take 1 q) (key ∷ [])) (chunk k 2 cells.now) }
{
    let mut at = 0;
    for _ in 0..k {
        if cells[at] == key {
            return true;
        }
        at += 2;
    }
    false
}

// Writes a key and its aggregate over these rows as a row at dst: the key, standing there, is the left row.
fn give_key(found: &Found, key: u64, cells: &mut [u64], dst: usize, rows: HeldRows)
    requires { FoundInside found.now 1 (length rows.columns.now) × (dst + 2 ≤ rows.at) × HeldWithin rows (length cells.old) }
    ensures { KeyWritten found.now key dst (held_in rows.entry cells.old) cells.old cells.new }
{
    cells[dst] = key;
    let value = gather(found, cells, dst, rows);
    cells[dst + 1] = value;
}

// Each first occurrence of a key among these rows, with its aggregate over them: rows of two cells, at the front. `group_linked` finds a key and
// gathers its rows in another way; one function over both would be longer.
fn group_all(found: &Found, cells: &mut [u64], rows: HeldRows, side: Side) -> usize
    requires inside { FoundInside found.now 1 (length rows.columns.now) × SideInside side 0 (length rows.columns.now) }
    requires room { (rows.count * 2 ≤ rows.at) × HeldWithin rows (length cells.old) }
    ensures { Gives (grouped_by found.now (side_cell side []) (held_in rows.entry cells.old)) 2 rows.entry.count result cells.new }
{
    let w = rows.columns.len();
    let mut out = 0;
    let mut src = rows.at;
    let mut dst = 0;
    for _ in 0..rows.count {
        let key = side_cell(side, cells, 0, src);
        if !key_given(cells, out, key) {
            give_key(found, key, cells, dst, rows);
            out += 1;
            dst += 2;
        }
        src += w;
    }
    out
}

// As give_key, through an index of the rows by their key.
fn give_linked(
    found: &Found,
    key: u64,
    cells: &mut [u64],
    dst: usize,
    rows: HeldRows,
    index: KeyIndex,
)
    requires inside { FoundInside found.now 1 (length rows.columns.now) × (dst + 2 ≤ rows.at) × HeldWithin rows (length cells.old) }
    requires indexed { Indexed index found.now rows cells.old }
    ensures { KeyWritten found.now key dst (held_in rows.entry cells.old) cells.old cells.new }
{
    cells[dst] = key;
    let value = gather_linked(found, cells, dst, rows, index);
    cells[dst + 1] = value;
}

// As group_all, through an index of the rows by their key: a row is the first with its key where the index finds no other before it.
fn group_linked(found: &Found, cells: &mut [u64], rows: HeldRows, index: KeyIndex) -> usize
    requires inside { FoundInside found.now 1 (length rows.columns.now) × (index.keys.right < length rows.columns.now) }
    requires room { (rows.count * 2 ≤ rows.at) × HeldWithin rows (length cells.old) }
    requires indexed { Indexed index found.now rows cells.old }
    ensures { Gives (grouped_by found.now (λ q. get_or q index.entry.keys.right 0) (held_in rows.entry cells.old)) 2 rows.entry.count result cells.new }
{
    let w = rows.columns.len();
    let mut out = 0;
    let mut src = rows.at;
    let mut dst = 0;
    for i in 0..rows.count {
        let key = cells[src + index.keys.right];
        if first_linked(cells, rows, index, key) == i {
            give_linked(found, key, cells, dst, rows, index);
            out += 1;
            dst += 2;
        }
        src += w;
    }
    out
}

// The same, with the index made first.
fn group_indexed(found: &Found, cells: &mut [u64], rows: HeldRows, keys: KeyPlaces) -> usize
    requires inside { FoundInside found.now 1 (length rows.columns.now) × Equals keys.left keys.right found.now.keys }
    requires room { (rows.count * 2 ≤ rows.at) × HeldWithin rows (length cells.old) }
    ensures { Gives (grouped_by found.now (λ q. get_or q keys.right 0) (held_in rows.entry cells.old)) 2 rows.entry.count result cells.new }
{
    let mut heads = [0u16; 4096];
    let mut next = [0u16; 4096];
    build(
        &cells[rows.at..],
        rows.columns.len(),
        keys.right,
        rows.count,
        &mut heads,
        &mut next,
    );
    let index = KeyIndex {
        keys,
        heads: &heads,
        next: &next,
    };
    group_linked(found, cells, rows, index)
}

// Each first occurrence of the right key among m rows at `own`, with its aggregate over these rows: rows of two cells, at the front.
pub(crate) fn group(
    node: Node,
    cells: &mut [u64],
    own: usize,
    m: usize,
    ids: &[u8],
    env: &[u64],
) -> usize
    requires kind_value { (node.kind ≡ Group) × (length env.now ≡ 256) × (m ≤ 4096) × (length ids.now ≤ 32) }
    requires m_bound { (m * 2 ≤ own) × (own + m * length ids.now ≤ length cells.old) }
    ensures { Gives (acted (operator_of node) ids.now (env_of env.now)
        (rows_from own m (length ids.now) cells.old)) 2 m result cells.new }
{
    let rows = HeldRows {
        at: own,
        count: m,
        columns: ids,
    };
    let left = [node.left];
    let found = find(node, &left, ids, env);
    if FEW <= m {
        if let Some(keys) = key_places(found.keys) {
            if keys.right == place_of(ids, node.right) {
                return group_indexed(&found, cells, rows, keys);
            }
        }
    }
    let none = [0u8; 0];
    let side = side_of(&none, ids, env, node.right);
    group_all(&found, cells, rows, side)
}
