// A place of an accepted plan, with the node there: what each rule is tried at.
ghost use Rattle.std.specs.Prelude.{◌≡◌, ◌+◌, ◌<◌, min};
ghost use Rattle.algebra.specs.Places.{size};
ghost use Rattle.reading.specs.Check.{input_refusal};
ghost use Rattle.reading.specs.Plan.{node_at, nodes_of};
ghost use Rattle.reading.specs.Tree.{plan_at};

use reading::plan::Node;
use reading::tree::tree_end;

// Place i of a plan that is accepted over a set.
#[derive(Clone, Copy)]
pub struct Place<'a> {
    pub set: &'a [u8],
    pub plan: &'a [u8],
    pub i: usize,
    pub node: Node,
    pub ghost accepted: { input_refusal set.now plan.now ≡ 0 },
    pub ghost within: { i < nodes_of plan.now },
    pub ghost is: { node ≡ node_at plan.now i },
}

impl Place<'_> {
    // The place of the node's second child: where its first child's tree ends.
    pub(crate) fn second(self) -> usize
        ensures { result ≡ min (self.entry.i + 1 + size (plan_at self.entry.plan.now (self.entry.i + 1))) (nodes_of self.entry.plan.now + 1) }
    {
        tree_end(self.plan, self.i + 1)
    }
}
