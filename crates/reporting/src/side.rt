// Columns found once for a node: where its keys, its test and its aggregate read their cells, of a left row and a right row.
ghost use Rattle.std.specs.Prelude.{◌≡◌, ◌-◌, length, drop};
ghost use Rattle.algebra.specs.Plans.{test, holds};
ghost use Rattle.reading.specs.Tree.{form_of};
ghost use Rattle.reporting.specs.Keys.{keys_hold};
ghost use Rattle.reporting.specs.Rows.{env_of};
ghost use Rattle.reporting.specs.Sides.{side_cell, SideInside, SideFor, MeasuredFor, ConditionFor, PlacesFor, FoundFor, side_places, turned_found};
ghost use Rattle.reporting.specs.Known.{side_shared, compared_shared, SharedIf};

use crate::gather::aggregate_kind;
use crate::places::place_of;
use crate::test::{has_keys, key_comparison};
use reading::comparison::Comparison;
use reading::plan::{AggregateKind, Node, Test};

// Where a value is read: at a place of the left row, at a place of the right row, or it is one word whatever the rows.
#[derive(Clone, Copy)]
pub enum Side {
    Left(usize),
    Right(usize),
    Word(u64),
}

// A comparison of two sides.
#[derive(Clone, Copy)]
pub struct Compared {
    pub comparison: Comparison,
    pub left: Side,
    pub right: Side,
}

// A comparison under a not-mark; with none, the outcome under the mark is true whatever the rows.
#[derive(Clone, Copy)]
pub struct Condition {
    pub compared: Option<Compared>,
    pub negated: bool,
}

// What a node asks of a left row and a right row, and what its aggregate measures of them.
#[derive(Clone, Copy)]
pub struct Found {
    pub keys: Condition,
    pub test: Condition,
    pub aggregate: AggregateKind,
    pub measured: Side,
}

// Where two keys stand that are compared by =, the left one in the left row and the right one in the right row.
#[derive(Clone, Copy)]
pub struct KeyPlaces {
    pub left: usize,
    pub right: usize,
}

// ---- Sides

// The side of a column: the right row's, where its id is one of the right columns, else the left row's, else the word around the rows.
pub(crate) fn side_of(cs: &[u8], ds: &[u8], env: &[u64], id: u8) -> Side
    requires { length env.now ≡ 256 }
    ensures { SideFor cs.now ds.now (env_of env.now) id result }
{
    let right = place_of(ds, id);
    if right < ds.len() {
        return Side::Right(right);
    }
    let left = place_of(cs, id);
    if left < cs.len() {
        return Side::Left(left);
    }
    let at = id as usize;
    Side::Word(env[at])
}

// The value of a side, of the left row at src and the right row at `at`.
pub(crate) fn side_cell(side: Side, cells: &[u64], src: usize, at: usize) -> u64
    requires { SideInside side (length cells.now - src) (length cells.now - at) }
    ensures { result ≡ side_cell side (drop src cells.now) (drop at cells.now) }
{
    match side {
        Side::Left(place) => cells[src + place],
        Side::Right(place) => cells[at + place],
        Side::Word(word) => word,
    }
}

// Whether a side is the same for every left row.
fn side_shared(side: Side) -> bool
    ensures { result ≡ side_shared side }
{
    match side {
        Side::Left(_) => false,
        Side::Right(_) => true,
        Side::Word(_) => true,
    }
}

// ---- Conditions

// The condition of a test under its not-mark.
pub(crate) fn find_test(negated: bool, form: Test, cs: &[u8], ds: &[u8], env: &[u64]) -> Condition
    requires { length env.now ≡ 256 }
    ensures { ConditionFor cs.now ds.now (env_of env.now) (holds (test negated (form_of form))) result }
{
    match form {
        Test::Always => Condition {
            compared: None,
            negated,
        },
        Test::Columns {
            comparison,
            left,
            right,
        } => Condition {
            compared: Some(Compared {
                comparison,
                left: side_of(cs, ds, env, left),
                right: side_of(cs, ds, env, right),
            }),
            negated,
        },
        Test::Number {
            comparison,
            left,
            number,
        } => Condition {
            compared: Some(Compared {
                comparison,
                left: side_of(cs, ds, env, left),
                right: Side::Word(number),
            }),
            negated,
        },
    }
}

// The condition of a node's keys; a kind without keys asks nothing.
fn find_keys(node: Node, cs: &[u8], ds: &[u8], env: &[u64]) -> Condition
    requires { length env.now ≡ 256 }
    ensures { ConditionFor cs.now ds.now (env_of env.now) (keys_hold node.kind node) result }
{
    let kind = node.kind;
    if !has_keys(kind) {
        return Condition {
            compared: None,
            negated: false,
        };
    }
    Condition {
        compared: Some(Compared {
            comparison: key_comparison(kind, node.comparison),
            left: side_of(cs, ds, env, node.left),
            right: side_of(cs, ds, env, node.right),
        }),
        negated: false,
    }
}

// The places of two sides, where the first is one of the left row and the second one of the right row.
fn side_places(left: Side, right: Side) -> Option<KeyPlaces>
    ensures { result ≡ side_places left right }
{
    match (left, right) {
        (Side::Left(left), Side::Right(right)) => Some(KeyPlaces { left, right }),
        _ => None,
    }
}

// Where the two keys of a condition stand, if it compares them by =.
pub(crate) fn key_places(keys: Condition) -> Option<KeyPlaces>
    ensures { PlacesFor keys result }
{
    if keys.negated {
        return None;
    }
    let compared = keys.compared?;
    match compared.comparison {
        Comparison::Equal => side_places(compared.left, compared.right),
        _ => None,
    }
}

// ---- A node

// What an aggregate measures; a count measures nothing.
fn find_measured(aggregate: AggregateKind, id: u8, cs: &[u8], ds: &[u8], env: &[u64]) -> Side
    requires { length env.now ≡ 256 }
    ensures { MeasuredFor cs.now ds.now (env_of env.now) aggregate id result }
{
    match aggregate {
        AggregateKind::Count => Side::Word(0),
        AggregateKind::Sum | AggregateKind::Least | AggregateKind::Greatest => {
            side_of(cs, ds, env, id)
        }
    }
}

// Finds the columns of a node, of a left row of columns cs and a right row of columns ds.
pub(crate) fn find(node: Node, cs: &[u8], ds: &[u8], env: &[u64]) -> Found
    requires { length env.now ≡ 256 }
    ensures { FoundFor node cs.now ds.now (env_of env.now) result }
{
    let aggregate = aggregate_kind(node);
    let form = node.test;
    Found {
        keys: find_keys(node, cs, ds, env),
        test: find_test(node.negated, form, cs, ds, env),
        aggregate,
        measured: find_measured(aggregate, node.column, cs, ds, env),
    }
}

// Whether what is compared is the same for every left row.
fn compared_shared(compared: Option<Compared>) -> bool
    ensures { result ≡ compared_shared compared }
{
    match compared {
        None => true,
        Some(sides) => side_shared(sides.left) && side_shared(sides.right),
    }
}

// Whether a node's test and what its aggregate measures are the same for every left row.
pub(crate) fn is_shared(found: Found) -> bool
    ensures { SharedIf result found }
{
    compared_shared(found.test.compared) && side_shared(found.measured)
}

impl Found {
    // The same, with the not-mark of its test turned.
    pub(crate) fn turned(self) -> Found
        ensures { result ≡ turned_found self }
    {
        Found {
            test: Condition {
                negated: !self.test.negated,
                ..self.test
            },
            ..self
        }
    }
}
