// The plan's bytes: its header, its nodes and their fields.
ghost use Rattle.std.specs.Prelude.{◌≡◌, ◌+◌, ◌*◌, ◌≤◌, ◌<◌, ◌∷◌, [], min, length, take, drop};
ghost use Rattle.reading.specs.Plan.{kind_table, test_number, limited, list_allowed, list_ends, test_allowed, count_allowed, fields_allowed, node_part, test_of, node_of, node_at, plan_mark, nodes_allowed, read_plan_as};
ghost use Rattle.reading.specs.Tree.{aggregate_by, node_aggregate};

use crate::bytes::{byte_at, head, starts_with, tail};
use crate::comparison::Comparison;
use crate::kind_table::{KIND_TABLE, TEST_LIMITS, kind_entry};
use crate::kinds::Kind;
use crate::refusal::Refusal;
use crate::set::{number_as, word, word_of_four};
use crate::version::{Version, node_size, nodes_in, version_at};

const FIRST_MARK: [u8; 5] = [82, 80, 84, 1, 0];
// The mark of a version 2 plan.
pub const PLAN_MARK: [u8; 5] = [82, 80, 84, 2, 0];

// A node's test, without its not-mark: always; a column with a column; a column with a number, given as a cell's word.
#[derive(Clone, Copy)]
pub enum Test {
    Always,
    Columns {
        comparison: Comparison,
        left: u8,
        right: u8,
    },
    Number {
        comparison: Comparison,
        left: u8,
        number: u64,
    },
}

// The ids that a node lists: the first `count` of `ids`. The count is the byte as it is written: in a plan that is not accepted it may be over
// 7, and then there are the 7 that there is room for.
#[derive(Clone, Copy, Debug, PartialEq, Eq)]
pub struct IdList {
    pub ids: [u8; 7],
    pub count: u8,
}

impl IdList {
    pub const NONE: IdList = IdList {
        ids: [0; 7],
        count: 0,
    };

    // A list of one id.
    pub fn one(id: u8) -> IdList
        ensures { result ≡ record { ids = id ∷ 0 ∷ 0 ∷ 0 ∷ 0 ∷ 0 ∷ 0 ∷ []; count = 1 } }
    {
        IdList {
            ids: [id, 0, 0, 0, 0, 0, 0],
            count: 1,
        }
    }

    // How many ids there are: the count, but no more than there is room for.
    pub fn len(&self) -> usize
        ensures { (result ≤ 7) × (result ≡ length (take self.now.count self.now.ids)) × (take result self.now.ids ≡ take self.now.count self.now.ids) × (result ≡ min self.now.count 7) }
    {
        let n = self.count as usize;
        if n < 7 { n } else { 7 }
    }

    pub fn as_slice(&self) -> &[u8]
        ensures { result.now ≡ take self.now.count self.now.ids }
    {
        &self.ids[..self.len()]
    }
}

// The four aggregates.
#[derive(Clone, Copy, Debug, PartialEq, Eq)]
pub enum AggregateKind {
    Count,
    Sum,
    Least,
    Greatest,
}

#[derive(Clone, Copy)]
pub struct Node {
    pub kind: Kind,
    pub arg: u8,
    pub id: u8,
    pub left: u8,
    pub right: u8,
    pub comparison: Comparison,
    pub column: u8,
    pub list: IdList,
    pub negated: bool,
    pub test: Test,
}

impl Node {
    // Which aggregate the node's argument names; an argument above 2 names the greatest.
    pub fn aggregate_kind(self) -> AggregateKind
        ensures { aggregate_by result self.column ≡ node_aggregate self }
    {
        match self.arg {
            0 => AggregateKind::Count,
            1 => AggregateKind::Sum,
            2 => AggregateKind::Least,
            _ => AggregateKind::Greatest,
        }
    }
}

// ---- The fields of a node's bytes

// Kinds and forms are numbers here, since a byte is looked up in the tables of limits before it is known to name anything (`fields_allowed`).

// Whether each of the first n bytes is at most its limit.
fn bytes_within(n: usize, bytes: &[u8], limits: &[u8]) -> bool
    ensures { result ≡ limited n bytes.now limits.now }
{
    for j in 0..n {
        if byte_at(limits, j) < byte_at(bytes, j) {
            return false;
        }
    }
    true
}

fn kind_allowed(kind: usize, node: &[u8]) -> bool
    requires { kind < 15 }
    ensures { result ≡ limited 7 (drop 1 node.now) (drop (10 * kind + 1) kind_table) }
{
    let table = KIND_TABLE;
    let row = 10 * kind + 1;
    bytes_within(7, tail(node, 1), tail(&table, row))
}

fn count_allowed(node: &[u8]) -> bool
    ensures { result ≡ count_allowed node.now }
{
    if byte_at(node, 1) != 0 {
        return true;
    }
    byte_at(node, 6) == 0
}

// Whether the list's bytes past its length are 0.
fn list_ends(node: &[u8], listed: usize) -> bool
    ensures { result ≡ list_ends node.now listed }
{
    for j in listed..7 {
        if byte_at(node, 9 + j) != 0 {
            return false;
        }
    }
    true
}

fn list_allowed(has: u8, node: &[u8]) -> bool
    ensures { result ≡ list_allowed has node.now }
{
    let listed = byte_at(node, 8) as usize;
    if listed < has as usize {
        return false;
    }
    if 7 * (has as usize) < listed {
        return false;
    }
    list_ends(node, listed)
}

// The number that a test compares with, as a cell's word.
fn test_number(version: Version, node: &[u8]) -> u64
    ensures { result ≡ test_number version node.now }
{
    let b0 = byte_at(node, 20);
    let b1 = byte_at(node, 21);
    let b2 = byte_at(node, 22);
    let b3 = byte_at(node, 23);
    match version {
        Version::First => word_of_four(b0, b1, b2, b3),
        Version::Second => word(
            b0,
            b1,
            b2,
            b3,
            byte_at(node, 24),
            byte_at(node, 25),
            byte_at(node, 26),
            byte_at(node, 27),
        ),
    }
}

fn test_allowed(version: Version, has: u8, node: &[u8]) -> bool
    ensures { result ≡ test_allowed version has node.now }
{
    let form = byte_at(node, 16) as usize;
    let limits = TEST_LIMITS;
    let row = if has == 0 { 0 } else { 16 * (1 + form) };
    let size = node_size(version) - 16;
    if !bytes_within(size, tail(node, 16), tail(&limits, row)) {
        return false;
    }
    if form != 2 {
        return true;
    }
    number_as(version, test_number(version, node))
}

// Whether every field of a node is one that its kind lists, in its range.
fn fields_allowed(version: Version, node: &[u8]) -> bool
    ensures { result ≡ fields_allowed version node.now }
{
    let kind = byte_at(node, 0) as usize;
    if 15 <= kind {
        return false;
    }
    if !kind_allowed(kind, node) {
        return false;
    }
    if !count_allowed(node) {
        return false;
    }
    if !list_allowed(kind_entry(kind, 8), node) {
        return false;
    }
    test_allowed(version, kind_entry(kind, 9), node)
}

// ---- The nodes

// The bytes of node i, as a part of the plan, whose header says its version.
fn node_part(plan: &[u8], i: usize) -> &[u8]
    requires { i < 64 }
    ensures { result.now ≡ node_part plan.now i }
{
    let size = node_size(version_at(plan));
    let at = 6 + size * i;
    head(tail(plan, at), size)
}

fn nodes_allowed(version: Version, n: usize, plan: &[u8]) -> bool
    requires { n ≤ 64 }
    ensures { result ≡ nodes_allowed version n plan.now }
{
    for i in 0..n {
        if !fields_allowed(version, node_part(plan, i)) {
            return false;
        }
    }
    true
}

pub fn plan_mark(version: Version) -> [u8; 5]
    ensures { result ≡ plan_mark version }
{
    match version {
        Version::First => FIRST_MARK,
        Version::Second => PLAN_MARK,
    }
}

// Reads the plan's bytes as this version's, its header and each node's fields: how many nodes it has, or a refusal.
pub fn read_plan(version: Version, plan: &[u8]) -> Result<usize, Refusal>
    ensures { result ≡ read_plan_as version plan.now }
{
    if plan.len() < 6 {
        return Err(Refusal::PlanLength);
    }
    let mark = plan_mark(version);
    if !starts_with(plan, &mark) {
        return Err(Refusal::PlanMark);
    }
    let n = byte_at(plan, 5) as usize;
    if n < 1 {
        return Err(Refusal::NodeCount);
    }
    if 64 < n {
        return Err(Refusal::NodeCount);
    }
    if plan.len() != 6 + node_size(version) * n {
        return Err(Refusal::PlanLength);
    }
    if !nodes_allowed(version, n, plan) {
        return Err(Refusal::NodeField);
    }
    Ok(n)
}

// ---- A node's value

fn test_of(version: Version, node: &[u8]) -> Test
    requires { 24 ≤ length node.now }
    ensures { result ≡ test_of version node.now }
{
    let form = node[16];
    if form == 0 {
        return Test::Always;
    }
    let comparison = Comparison::from(node[17]);
    if form == 1 {
        return Test::Columns {
            comparison,
            left: node[19],
            right: node[20],
        };
    }
    Test::Number {
        comparison,
        left: node[19],
        number: test_number(version, node),
    }
}

fn node_of(version: Version, node: &[u8]) -> Node
    requires { 24 ≤ length node.now }
    ensures { result ≡ node_of version node.now }
{
    let kind = Kind::from(node[0]);
    let comparison = Comparison::from(node[5]);
    let test = test_of(version, node);
    let list = IdList {
        ids: [
            node[9], node[10], node[11], node[12], node[13], node[14], node[15],
        ],
        count: node[8],
    };
    Node {
        kind,
        arg: node[1],
        id: node[2],
        left: node[3],
        right: node[4],
        comparison,
        column: node[6],
        list,
        negated: node[18] == 1,
        test,
    }
}

// Node i of the plan; past the last node it is a Unit. It is compiled into its callers, most of which ask for a few fields alone: as a call of its
// own it would make all of them each time.
#[inline(always)]
pub fn node_at(plan: &[u8], i: usize) -> Node
    ensures { result ≡ node_at plan.now i }
{
    let version = version_at(plan);
    if i < nodes_in(version, plan.len()) {
        let size = node_size(version);
        let at = 6 + size * i;
        let end = at + size;
        if end <= plan.len() {
            return node_of(version, &plan[at..end]);
        }
    }
    Node {
        kind: Kind::Unit,
        arg: 0,
        id: 0,
        left: 0,
        right: 0,
        comparison: Comparison::Equal,
        column: 0,
        list: IdList::NONE,
        negated: false,
        test: Test::Always,
    }
}
