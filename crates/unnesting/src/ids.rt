// The smallest id introduced nowhere in a plan: a set of ids as four words of 64 bits.
ghost use Rattle.std.specs.Prelude.{◌≡◌, true, [], ◌∷◌, ◌<◌, ◌≤◌};
ghost use Rattle.algebra.specs.Lists.{upward};
ghost use Rattle.algebra.specs.Rules.{fresh};
ghost use Rattle.reading.specs.TableSet.{tables_of};
ghost use Rattle.reading.specs.Tree.{operator_of, plan_of, whole_tree};
ghost use Rattle.reading.specs.Nodes.{operator_new};
ghost use Rattle.unnesting.specs.Ids.{Holds, Holding, Lowest, SmallestFree, free_of};

use reading::ids::new_ids;
use reading::kinds::Kind;
use reading::plan::{Node, node_at};
use reading::tree::nodes_of;

// A set of ids below 256: id i is the digit i % 64 of the word i / 64.
#[derive(Clone, Copy)]
pub struct IdSet {
    words: [u64; 4],
}

// The lowest digit that is not set, or 64: trailing zeros of the complement.
fn lowest(w: u64) -> u8
    ensures { Lowest w result }
{
    u64::trailing_zeros(!w) as u8
}

impl IdSet {
    fn none() -> IdSet
        ensures { Holds result [] }
    {
        IdSet { words: [0; 4] }
    }

    // Puts an id into the set; what is above 255 is no id.
    fn put(&mut self, id: usize)
        ensures { Holding self.old (id ∷ []) self.new }
    {
        if id < 256 {
            self.words[id / 64] |= 1u64 << (id % 64);
        }
    }

    // Puts `count` ids into the set, from `first` upward.
    fn put_run(&mut self, first: u8, count: usize)
        requires { count ≤ 256 }
        ensures { Holding self.old (upward count first) self.new }
    {
        for k in 0..count {
            self.put(first as usize + k);
        }
    }

    // Puts the ids that the node introduces into the set.
    fn put_node(&mut self, set: &[u8], node: Node)
        ensures { Holding self.old (operator_new (tables_of set.now) (operator_of node)) self.new }
    {
        self.put_run(node.id, new_ids(set, node));
        match node.kind {
            Kind::Group => self.put(node.left as usize),
            _ => {}
        }
    }

    fn smallest_free(self) -> Option<u8>
        ensures { SmallestFree self result }
    {
        for i in 0..4u8 {
            let free = lowest(self.words[i as usize]);
            if free < 64 {
                return Some(64 * i + free);
            }
        }
        None
    }
}

// The smallest id introduced nowhere in the plan, in one walk over its nodes.
pub(crate) fn fresh_id(set: &[u8], plan: &[u8]) -> Option<u8>
    requires { whole_tree plan.now ≡ true }
    ensures { free_of result ≡ fresh (tables_of set.now) (plan_of plan.now) }
{
    let mut ids = IdSet::none();
    for i in 0..nodes_of(plan) {
        ids.put_node(set, node_at(plan, i));
    }
    ids.smallest_free()
}
