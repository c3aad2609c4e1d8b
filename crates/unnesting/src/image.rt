// A node's 32 bytes, and bytes written at a place.
ghost use Rattle.std.specs.Prelude.{◌≡◌, ◌+◌, ◌≤◌, false, length};
ghost use Rattle.reading.specs.Encoding.{number_bytes};
ghost use Rattle.reading.specs.declared.version.Version.TheVariants.{Second};
ghost use Rattle.reading.specs.declared.comparison.Comparison.TheVariants.{Equal};
ghost use Rattle.reading.specs.declared.plan.Test.TheVariants.{Always};
ghost use Rattle.unnesting.specs.Images.{bytes_written, image, plain_node, test_image};

use reading::comparison::Comparison;
use reading::kinds::Kind;
use reading::plan::{IdList, Node, Test};

// The eight bytes of a number that is held as a cell's word: half the range is added, as a sum that wraps.
fn number_bytes(number: u64) -> [u8; 8]
    ensures { result ≡ number_bytes Second number }
{
    number.wrapping_add(9223372036854775808).to_le_bytes()
}

// A test's 16 bytes.
fn test_image(negated: bool, test: Test) -> [u8; 16]
    ensures { result ≡ test_image negated test }
{
    let mark = u8::from(negated);
    match test {
        Test::Always => [0, 0, mark, 0, 0, 0, 0, 0, 0, 0, 0, 0, 0, 0, 0, 0],
        Test::Columns {
            comparison,
            left,
            right,
        } => {
            let compared = u8::from(comparison);
            [
                1, compared, mark, left, right, 0, 0, 0, 0, 0, 0, 0, 0, 0, 0, 0,
            ]
        }
        Test::Number {
            comparison,
            left,
            number,
        } => {
            let compared = u8::from(comparison);
            let mut bytes = [2, compared, mark, left, 0, 0, 0, 0, 0, 0, 0, 0, 0, 0, 0, 0];
            bytes[4..12].copy_from_slice(&number_bytes(number));
            bytes
        }
    }
}

// A node's 32 bytes.
fn node_image(node: Node) -> [u8; 32]
    ensures { result ≡ image node }
{
    let kind = u8::from(node.kind);
    let comparison = u8::from(node.comparison);
    let mut bytes = [0u8; 32];
    bytes[0..9].copy_from_slice(&[
        kind,
        node.arg,
        node.id,
        node.left,
        node.right,
        comparison,
        node.column,
        0,
        node.list.count,
    ]);
    bytes[9..16].copy_from_slice(&node.list.ids);
    bytes[16..32].copy_from_slice(&test_image(node.negated, node.test));
    bytes
}

// A node of a kind whose other fields are zeros, with no list and a plain always test: what the nodes that the rules make are filled up from.
pub(crate) fn plain_node(kind: Kind) -> Node
    ensures { result ≡ plain_node kind 0 0 0 0 Equal 0 false Always }
{
    Node {
        kind,
        arg: 0,
        id: 0,
        left: 0,
        right: 0,
        comparison: Comparison::Equal,
        column: 0,
        list: IdList::NONE,
        negated: false,
        test: Test::Always,
    }
}

// Writes bytes from a place on: a name for the library's copy, since the proofs of runs speak of `bytes_written`.
pub(crate) fn write_bytes(out: &mut [u8], at: usize, bytes: &[u8])
    requires { at + length bytes.now ≤ length out.old }
    ensures { out.new ≡ bytes_written out.old at bytes.now }
{
    out[at..at + bytes.len()].copy_from_slice(bytes);
}

// Writes a node's 32 bytes from a place on.
pub(crate) fn write_node(out: &mut [u8], at: usize, node: Node)
    requires { at + 32 ≤ length out.old }
    ensures { (out.new ≡ bytes_written out.old at (image node)) × (length (image node) ≡ 32) }
{
    let bytes = node_image(node);
    write_bytes(out, at, &bytes);
}
