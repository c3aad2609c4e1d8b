// Comparisons of cells.
ghost use Rattle.std.specs.Prelude.{◌&&◌, ◌≡◌};
ghost use Rattle.algebra.specs.Cells.{is_blank, is_number, is_unequal, order, compares};
ghost use Rattle.reading.specs.Tree.{comparison_of};

use reading::comparison::Comparison;

// Whether a cell is neither blank nor off scale.
pub fn is_number(x: u64) -> bool
    ensures { result ≡ is_number x }
{
    if x == 0 {
        return false;
    }
    x != 18446744073709551615
}

// Whether two numbers stand in the order that a comparison asks for.
fn ordered(comparison: Comparison, a: u64, b: u64) -> bool
    ensures { result ≡ order (comparison_of comparison) a b }
{
    match comparison {
        Comparison::Equal => a == b,
        Comparison::Unequal => a != b,
        Comparison::Less => a < b,
        Comparison::AtMost => a <= b,
        Comparison::Greater => b < a,
        Comparison::AtLeast | Comparison::Other(_) => b <= a,
    }
}

// Whether a comparison holds of a number and a cell that is none, on either side: ≠ does, of a blank.
fn beside_number(comparison: Comparison, x: u64) -> bool
    ensures { result ≡ is_blank x && is_unequal (comparison_of comparison) }
{
    if x != 0 {
        return false;
    }
    match comparison {
        Comparison::Unequal => true,
        _ => false,
    }
}

// Two numbers compare as they are ordered; a number and a blank are unequal; no other comparison with a blank or off-scale side holds.
pub fn compare(comparison: Comparison, a: u64, b: u64) -> bool
    ensures { result ≡ compares (comparison_of comparison) a b }
{
    let left = is_number(a);
    let right = is_number(b);
    if left {
        if right {
            return ordered(comparison, a, b);
        }
        return beside_number(comparison, b);
    }
    if right {
        return beside_number(comparison, a);
    }
    false
}
