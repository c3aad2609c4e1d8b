// The whole of reading: the refusals 1 to 14 of a set and a plan.
ghost use Rattle.std.specs.Prelude.{◌≡◌, Ok};
ghost use Rattle.reading.specs.Plan.{read_plan_as};
ghost use Rattle.reading.specs.Check.{check_as, check_over_as, check_of, check_over};

use crate::bound::bounds_low;
use crate::columns::rows_narrow;
use crate::ids::ids_once;
use crate::need::need_of;
use crate::plan::read_plan;
use crate::refusal::Refusal;
use crate::scan::tables_found;
use crate::set::read_set;
use crate::tree::whole_tree;
use crate::version::Version;
use crate::view::tree_seen;

// What is known of a set and a plan that are not turned back: how many tables and nodes they have, and the need in cells.
#[derive(Clone, Copy)]
pub struct Accepted {
    pub tables: usize,
    pub nodes: usize,
    pub need: usize,
}

// 10 to 14, and the need, of a plan of n nodes that passes 6 to 9, over a set that is known to have so many tables.
fn check_tree(
    version: Version,
    set: &[u8],
    plan: &[u8],
    tables: usize,
    nodes: usize,
) -> Result<Accepted, Refusal>
    requires { read_plan_as version plan.now ≡ Ok nodes }
    ensures { result ≡ check_over_as version tables set.now plan.now }
{
    if !whole_tree(plan) {
        return Err(Refusal::Tree);
    }
    if !tables_found(tables, plan) {
        return Err(Refusal::NoTable);
    }
    if !ids_once(set, plan) {
        return Err(Refusal::Id);
    }
    if !tree_seen(set, plan, 0, [0u8; 256]) {
        return Err(Refusal::Id);
    }
    if !rows_narrow(set, plan) {
        return Err(Refusal::RowWide);
    }
    if !bounds_low(set, plan) {
        return Err(Refusal::BoundHigh);
    }
    Ok(Accepted {
        tables,
        nodes,
        need: need_of(set, plan),
    })
}

// 6 to 14 of a plan of this version over a set that is known to have so many tables: who checks many plans over one set reads it once.
pub fn check_plan_as(
    version: Version,
    set: &[u8],
    plan: &[u8],
    tables: usize,
) -> Result<Accepted, Refusal>
    ensures { result ≡ check_over_as version tables set.now plan.now }
{
    let nodes = read_plan(version, plan)?;
    check_tree(version, set, plan, tables, nodes)
}

// The refusals 1 to 14 of a set and a plan of this version, lowest number first: the set before the plan.
pub fn check_as(version: Version, set: &[u8], plan: &[u8]) -> Result<Accepted, Refusal>
    ensures { result ≡ check_as version set.now plan.now }
{
    let tables = read_set(version, set)?;
    check_plan_as(version, set, plan, tables)
}

// What the calls check: version 2.
pub fn check_plan(set: &[u8], plan: &[u8], tables: usize) -> Result<Accepted, Refusal>
    ensures { result ≡ check_over tables set.now plan.now }
{
    check_plan_as(Version::Second, set, plan, tables)
}

pub fn check_input(set: &[u8], plan: &[u8]) -> Result<Accepted, Refusal>
    ensures { result ≡ check_of set.now plan.now }
{
    check_as(Version::Second, set, plan)
}
