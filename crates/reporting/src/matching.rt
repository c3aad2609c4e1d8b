// What all left rows of a node with two children give, whose right rows are the same for each of them. Right rows are indexed where that
// serves.
ghost use Rattle.std.specs.Prelude.{◌≡◌, true, ◌*◌, ◌≤◌, length};
ghost use Rattle.reading.specs.Tree.{operator_of};
ghost use Rattle.reading.specs.Nodes.{arity};
ghost use Rattle.reporting.specs.Asked.{LookupFor, AllRoom, AllGiven};
ghost use Rattle.reporting.specs.Held.{HeldWithin, Indexed};
ghost use Rattle.reporting.specs.Keys.{has_keys};
ghost use Rattle.reporting.specs.Known.{Shared, SharedIf};
ghost use Rattle.reporting.specs.Rows.{env_of, emitted_columns, emitted_most};
ghost use Rattle.reporting.specs.Sides.{Equals};
ghost use Rattle.reporting.specs.Evaluation.{LoopRoom, PlainGiven};

use crate::asked::{Asked, Lookup};
use crate::emit::emit_row;
use crate::held::HeldRows;
use crate::index::{FEW, KeyIndex, build};
use crate::side::{KeyPlaces, find, is_shared, key_places};
use crate::test::has_keys;
use reading::kinds::Kind;
use reading::plan::Node;

// How many columns a node with two children gives, of its children's.
pub(crate) fn emitted_width(node: Node, ids: &[u8], jds: &[u8]) -> usize
    requires { (arity (operator_of node) ≡ 2) × (length ids.now ≤ 32) × (length jds.now ≤ 32) }
    ensures { result ≡ length (emitted_columns (operator_of node) ids.now jds.now) }
{
    let w = ids.len();
    match node.kind {
        Kind::Cross | Kind::Each => w + jds.len(),
        Kind::Fold | Kind::Pair => w + 1,
        _ => w,
    }
}

// The rows of each of m left rows at `own`, at the front. It is compiled for each lookup, so that no row asks for it.
#[inline(always)]
fn emit_all(
    asked: &Asked,
    lookup: Lookup,
    cells: &mut [u64],
    own: usize,
    m: usize,
    known: &mut [u64],
) -> usize
    requires room { AllRoom asked.now own m (length cells.old) }
    requires lookup { LookupFor lookup asked.now cells.old known.old }
    ensures { AllGiven asked.now own m cells.old result cells.new }
{
    let w = asked.ids.len();
    let wo = emitted_width(asked.node, asked.ids, asked.right.columns);
    let mut out = 0;
    let mut src = own;
    let mut dst = 0;
    for _ in 0..m {
        let r = emit_row(asked, lookup, cells, src, dst, known);
        out += r;
        dst += r * wo;
        src += w;
    }
    out
}

// The same through an index, where what is asked and measured is the same for every left row, with no aggregate kept before.
fn kept_at(asked: &Asked, index: KeyIndex, cells: &mut [u64], own: usize, m: usize) -> usize
    requires room { AllRoom asked.now own m (length cells.old) }
    requires keys { has_keys asked.now.node.kind ≡ true }
    requires indexed { Indexed index asked.now.found asked.now.right cells.old }
    requires shared { Shared asked.now.found }
    ensures { AllGiven asked.now own m cells.old result cells.new }
{
    let mut known = [0u64; 4097];
    emit_all(asked, Lookup::Kept(index), cells, own, m, &mut known)
}

// A Semi and an Anti, which stop at the first right row that is met, keep aggregates from so many right rows on: with fewer, this costs more
// than it saves.
const MANY: usize = 1024;

// Whether a node keeps aggregates by key.
fn keeps_cells(asked: &Asked) -> bool
    ensures { SharedIf result asked.now.found }
{
    match asked.node.kind {
        Kind::Pair => is_shared(asked.found),
        _ => asked.right.count >= MANY && is_shared(asked.found),
    }
}

// The same, with the index made first; aggregates are kept by key where that serves.
fn linked_at(asked: &Asked, keys: KeyPlaces, cells: &mut [u64], own: usize, m: usize) -> usize
    requires room { AllRoom asked.now own m (length cells.old) }
    requires keys { (has_keys asked.now.node.kind ≡ true) × Equals keys.left keys.right asked.now.found.keys }
    ensures { AllGiven asked.now own m cells.old result cells.new }
{
    let right = asked.right;
    let mut heads = [0u16; 4096];
    let mut next = [0u16; 4096];
    build(
        &cells[right.at..],
        right.columns.len(),
        keys.right,
        right.count,
        &mut heads,
        &mut next,
    );
    let index = KeyIndex {
        keys,
        heads: &heads,
        next: &next,
    };
    if keeps_cells(asked) {
        return kept_at(asked, index, cells, own, m);
    }
    let mut none = [0u64; 0];
    emit_all(asked, Lookup::ByKey(index), cells, own, m, &mut none)
}

// The rows of each of m left rows at `own`, at the front. Its columns are found once, and its right rows are indexed where that serves.
pub(crate) fn rows_of_each(
    node: Node,
    cells: &mut [u64],
    own: usize,
    m: usize,
    ids: &[u8],
    right: HeldRows,
    env: &[u64],
) -> usize
    requires node { (arity (operator_of node) ≡ 2) × (length env.now ≡ 256) × (length ids.now ≤ 32) }
    requires few { m * emitted_most (operator_of node) right.count ≤ 4096 }
    requires room { LoopRoom (operator_of node) ids.now right.columns.now right.count own m right.at × HeldWithin right (length cells.old) }
    ensures { PlainGiven (operator_of node) ids.now right.entry.columns.now (env_of env.now)
        own m right.entry.at right.entry.count cells.old result cells.new }
{
    let found = find(node, ids, right.columns, env);
    let asked = Asked {
        node,
        found,
        ids,
        right,
    };
    if FEW <= right.count && has_keys(node.kind) {
        if let Some(keys) = key_places(found.keys) {
            return linked_at(&asked, keys, cells, own, m);
        }
    }
    let mut none = [0u64; 0];
    emit_all(&asked, Lookup::All, cells, own, m, &mut none)
}
