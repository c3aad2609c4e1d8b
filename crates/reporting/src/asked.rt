// What one node with two children asks of its rows, and how its right rows are looked up.
ghost use Rattle.std.specs.Prelude.{◌≡◌, ◌≤◌, length};
ghost use Rattle.reading.specs.Nodes.{arity};
ghost use Rattle.reading.specs.Tree.{operator_of};
ghost use Rattle.reporting.specs.Sides.{FoundSomewhere};

use crate::held::HeldRows;
use crate::index::KeyIndex;
use crate::side::Found;
use reading::plan::Node;

// The node, where its columns are found, the columns of its left rows, and its right rows.
#[derive(Clone, Copy)]
pub struct Asked<'a, 'b> {
    pub node: Node,
    pub found: Found,
    pub ids: &'a [u8],
    pub right: HeldRows<'b>,
    pub ghost two: { arity (operator_of node) ≡ 2 },
    pub ghost narrow: { length ids.now ≤ 32 },
    pub ghost somewhere: { ∥ FoundSomewhere node ids.now right.columns.now found ∥₁ },
}

// Which right rows are asked for a left row: all; those in its key's bucket of an index; or those once for a key, whose aggregate is kept. What
// is kept stands apart, and is empty where nothing is: it is written to, while a lookup is handed on as a copy.
#[derive(Clone, Copy)]
pub enum Lookup<'a> {
    All,
    ByKey(KeyIndex<'a>),
    Kept(KeyIndex<'a>),
}
