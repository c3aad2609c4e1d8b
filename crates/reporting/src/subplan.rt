// The rows of a tree of a plan, for the layer above.
ghost use Rattle.std.specs.Prelude.{◌≡◌, [], ◌∷◌, ◌++◌, ◌*◌, ◌-◌, ◌≤◌, length, take, replicate};
ghost use Rattle.algebra.specs.Plans.{distinct, one};
ghost use Rattle.algebra.specs.Places.{unary_node};
ghost use Rattle.reading.specs.Refusals.{number_of};
ghost use Rattle.reading.specs.Tree.{operator_of, plan_at};
ghost use Rattle.reading.specs.Check.{input_refusal};
ghost use Rattle.reporting.specs.Report.{RowsGiven, rows_left, rows_number, scratch_number};

use crate::answer::Report;
use crate::eval::{eval, unary_at};
use crate::output::clear;
use reading::columns::columns_at;
use reading::comparison::Comparison;
use reading::input::check_input;
use reading::kinds::Kind;
use reading::plan::{IdList, Node, Test};
use reading::refusal::Refusal;

// Turns a call back: by 1 to 14, or by 16, which leaves scratch all zero. Else scratch is left as it was.
fn turned_back(set: &[u8], plan: &[u8], scratch: &mut [u64]) -> Result<(), Refusal>
    ensures value { number_of result ≡ rows_number set.now plan.now (length scratch.old) }
    ensures scratch_after { scratch.new ≡ rows_left (input_refusal set.now plan.now)
        (scratch_number set.now plan.now (length scratch.old)) scratch.old scratch.old }
{
    let accepted = check_input(set, plan)?;
    if scratch.len() < accepted.need {
        clear(scratch);
        return Err(Refusal::ScratchShort);
    }
    Ok(())
}

// The answer about so many rows at the front of scratch: zeros are left behind them.
fn given(rows: usize, columns: usize, scratch: &mut [u64]) -> Report
    requires { (rows * columns ≤ 131072) × (rows * columns ≤ length scratch.old) }
    ensures value { (result.rows ≡ rows) × (result.columns ≡ columns) }
    ensures scratch_after { scratch.new ≡ take (rows * columns) scratch.old ++ replicate (length scratch.old - rows * columns) 0 }
{
    let used = rows * columns;
    clear(&mut scratch[used..]);
    Report { rows, columns }
}

// Leaves the rows of the tree at a place at the front of scratch, and zeros behind them. Past the last node stands a Unit.
pub fn rows_at(
    set: &[u8],
    plan: &[u8],
    place: usize,
    scratch: &mut [u64],
) -> Result<Report, Refusal>
    ensures { RowsGiven set.now plan.now (plan_at plan.now place) scratch.old scratch.new result }
{
    turned_back(set, plan, scratch)?;
    let outside = [0u64; 256];
    let rows = eval(set, plan, place, scratch, &outside);
    let columns = columns_at(set, plan, place);
    Ok(given(rows, columns, scratch))
}

// A Distinct of one column.
fn distinct_of(id: u8) -> Node
    ensures { operator_of result ≡ unary_node (distinct (id ∷ [])) }
{
    Node {
        kind: Kind::Distinct,
        arg: 0,
        id: 0,
        left: 0,
        right: 0,
        comparison: Comparison::Equal,
        column: 0,
        list: IdList::one(id),
        negated: false,
        test: Test::Always,
    }
}

// As rows_at, for a Distinct of one column over the tree at a place. The need's 4,096 cells besides the regions hold the Distinct rows: they
// are no more than the tree's bound, which is at most 4,096.
pub fn keys_at(
    set: &[u8],
    plan: &[u8],
    place: usize,
    id: u8,
    scratch: &mut [u64],
) -> Result<Report, Refusal>
    ensures { RowsGiven set.now plan.now (one (distinct (id ∷ [])) (plan_at plan.now place))
        scratch.old scratch.new result }
{
    turned_back(set, plan, scratch)?;
    let outside = [0u64; 256];
    let m = eval(set, plan, place, &mut scratch[4096..], &outside);
    let node = distinct_of(id);
    let rows = unary_at(set, plan, place, node, scratch, 4096, m, &outside);
    Ok(given(rows, 1, scratch))
}
