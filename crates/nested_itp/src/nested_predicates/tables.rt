//! The predicates of a word before they are simplified: for each node of the refutation a node at each position.

ghost use Rattle.std.specs.Prelude.{◌≡◌, ◌<◌, ◌^◌, [], ◌∷◌, Some, Err, List, IfOk, OnOk, map, length, slice_get};
ghost use Rattle.std.specs.List.{AllByRecursion};
ghost use Rattle.lin_rows.specs.Rows.{IsRow};
ghost use Rattle.lin_rows.specs.Tightening.{tightened};
ghost use Rattle.farkas_check.specs.Nodes.{plain, plain_nodes};
ghost use Rattle.farkas_check.specs.Trees.{Tree, prefix_of};
ghost use Rattle.path_rows.specs.Paths.{IsPathOf};
ghost use Rattle.nested_itp.specs.NestedPredicates.Stamps.{stamps_of, column_stamp};
ghost use Rattle.nested_itp.specs.NestedPredicates.Positions.{positions_of};
ghost use Rattle.nested_itp.specs.NestedPredicates.Sums.{Branch, root_of};
ghost use Rattle.nested_itp.specs.NestedPredicates.Fitting.{SumsFit, NodeFits};
ghost use Rattle.nested_itp.specs.NestedPredicates.Interpolants.{RefutesRows};
ghost use Rattle.nested_itp.specs.NestedPredicates.Layouts.{IsLayout};
ghost use Rattle.nested_itp.specs.NestedPredicates.Tables.{branch_of, Await, IsGood, CanTake, row_of_node, branches_after, cut_node, cut_nodes_from, table_along};

use crate::nested_predicates::branches::Branches;
use crate::nested_predicates::faults::ItpFault;
use crate::nested_predicates::layout::Layout;
use crate::nested_predicates::passes::leaf_sums;
use crate::nested_predicates::spots::Spot;
use farkas_check::Node;
use letter_acts::Icfg;
use lin_rows::{Col, Row, tighten};
use path_rows::PathSystem;
use std::alloc::{AllocError, Global};
use triple_rows::PredNode;

/// The rows tightened.
fn tightened(alloc: Global, rows: &[Row]) -> Result<Vec<Row>, AllocError>
    ensures value { IfOk result (λ v. v.items ≡ map tightened rows.now) }
    ensures valid { IfOk result (λ v. AllByRecursion IsRow v.items) }
{
    let mut tight = Vec::with_capacity(alloc, rows.len())?;
    for i in 0..rows.len() {
        tight.push(tighten(alloc, &rows[i])?)?;
    }
    Ok(tight)
}

/// The stamp of a column; one that no letter made belongs to the start.
pub(crate) fn column_stamp(stamps: &[u64], column: Col) -> u64
    ensures { result ≡ column_stamp stamps.now column }
{
    match stamps.get(column as usize) {
        Some(stamp) => *stamp,
        None => 2,
    }
}

/// The node of a cut on a column with this stamp at each position: `Or` where it is counted, else `And`.
fn cut_nodes(alloc: Global, spots: &[Spot], stamp: u64) -> Result<Vec<PredNode>, AllocError>
    requires { length spots.now < 2 ^ 62 }
    ensures { IfOk result (λ v. v.items ≡ cut_nodes_from 0 stamp spots.now) }
{
    let mut nodes = Vec::with_capacity(alloc, spots.len())?;
    for position in 0..spots.len() {
        nodes.push(cut_node(spots[position].own, 2 * position as u64 + 1, stamp))?;
    }
    Ok(nodes)
}

/// `Or` where the stamp is above the first and up to the second, else `And`.
fn cut_node(own: u64, upto: u64, stamp: u64) -> PredNode
    ensures { result ≡ cut_node own upto stamp }
{
    if own < stamp && stamp <= upto {
        PredNode::Or(2)
    } else {
        PredNode::And(2)
    }
}

/// For each node of a refutation of a word's rows the node that stands for it at each position.
pub(crate) fn node_table(
    alloc: Global,
    icfg: &Icfg,
    path: &PathSystem,
    layout: &Layout,
    nodes: &[Node],
) -> Result<Vec<Vec<PredNode>>, ItpFault>
    requires path { IsPathOf icfg.now path.now }
    requires layout { IsLayout icfg.now path.now.word layout.now }
    requires refutes { RefutesRows (plain_nodes nodes.now) path.now.rows }
    ensures value { IfOk result (λ t. map (λ v. v.items) t.items ≡ table_along (stamps_of icfg.now path.now.word).columns (positions_of icfg.now path.now.word) (plain_nodes nodes.now) (root_of icfg.now path.now.word ∷ [])) }
    ensures past { result ≡ Err ItpFault.Past → (t : Tree) → prefix_of t ≡ plain_nodes nodes.now → SumsFit (stamps_of icfg.now path.now.word).columns (positions_of icfg.now path.now.word) (root_of icfg.now path.now.word) t → ⊥ }
{
    let mut branches = root_branches(alloc, path, layout)?;
    branch_table(alloc, icfg, path, layout, &mut branches, nodes)
}

/// The branch of no cut, whose rows are those of a word, tightened, with their stamps.
fn root_branches(alloc: Global, path: &PathSystem, layout: &Layout) -> Result<Branches, AllocError>
    requires { length layout.now.stamps.rows.items ≡ length path.now.rows }
    ensures value { IfOk result (λ b. Await b (record { rows = map tightened path.now.rows; stamps = layout.now.stamps.rows.items } ∷ [])) }
    ensures valid { OnOk result (AllByRecursion IsRow (map tightened path.now.rows)) }
{
    let rows = tightened(alloc, &path.system().rows)?;
    let stamps = Vec::from_slice(alloc, &layout.stamps.rows)?;
    Branches::root(alloc, rows, stamps)
}

/// For each of the nodes the node that stands for it at each position, where the branch of no cut waits.
fn branch_table(
    alloc: Global,
    icfg: &Icfg,
    path: &PathSystem,
    layout: &Layout,
    branches: &mut Branches,
    nodes: &[Node],
) -> Result<Vec<Vec<PredNode>>, ItpFault>
    requires path { IsPathOf icfg.now path.now }
    requires layout { IsLayout icfg.now path.now.word layout.now }
    requires refutes { RefutesRows (plain_nodes nodes.now) path.now.rows }
    requires waits { Await branches.old (root_of icfg.now path.now.word ∷ []) }
    requires valid { AllByRecursion IsRow (root_of icfg.now path.now.word).rows }
    ensures value { IfOk result (λ t. map (λ v. v.items) t.items ≡ table_along (stamps_of icfg.now path.now.word).columns (positions_of icfg.now path.now.word) (plain_nodes nodes.now) (root_of icfg.now path.now.word ∷ [])) }
    ensures past { result ≡ Err ItpFault.Past → (t : Tree) → prefix_of t ≡ plain_nodes nodes.now → SumsFit (stamps_of icfg.now path.now.word).columns (positions_of icfg.now path.now.word) (root_of icfg.now path.now.word) t → ⊥ }
{
    let mut table = Vec::with_capacity(alloc, nodes.len())?;
    for i in 0..nodes.len() {
        branches.go_on()?;
        table.push(node_row(alloc, icfg, path, layout, branches, &nodes[i])?)?;
    }
    Ok(table)
}

/// The nodes that stand for a node of the refutation on the branch at hand, one for each position. The sides of a cut wait.
fn node_row(
    alloc: Global,
    icfg: &Icfg,
    path: &PathSystem,
    layout: &Layout,
    branches: &mut Branches,
    node: &Node,
) -> Result<Vec<PredNode>, ItpFault>
    requires path { IsPathOf icfg.now path.now }
    requires layout { IsLayout icfg.now path.now.word layout.now }
    requires good { IsGood (branch_of branches.old) }
    requires can_take { CanTake (plain node.now) (branch_of branches.old) }
    ensures value { IfOk result (λ v. v.items ≡ row_of_node (stamps_of icfg.now path.now.word).columns (positions_of icfg.now path.now.word) (plain node.now) (branch_of branches.old)) }
    ensures past { result ≡ Err ItpFault.Past → NodeFits (positions_of icfg.now path.now.word) (plain node.now) (branch_of branches.old) → ⊥ }
    ensures branches { OnOk result ((rest : List Branch) → Await branches.old rest → Await branches.new (branches_after (stamps_of icfg.now path.now.word).columns (plain node.now) (branch_of branches.old) rest)) }
{
    match node {
        Node::Leaf(parts) => leaf_sums(
            alloc,
            icfg,
            path,
            layout,
            &branches.rows,
            &branches.stamps,
            parts,
        ),
        Node::Cut { col, k } => {
            let stamp = column_stamp(&layout.stamps.columns, *col);
            let row = cut_nodes(alloc, &layout.spots, stamp)?;
            branches.split(alloc, *col, *k, stamp)?;
            Ok(row)
        }
        Node::Cases(_) => unreachable!(),
    }
}

/// The nodes at a position, in order.
pub(crate) fn nodes_at(
    alloc: Global,
    table: &[Vec<PredNode>],
    position: usize,
) -> Result<Vec<PredNode>, AllocError>
    requires { AllByRecursion (λ v. position < length v.items) table.now }
    ensures { IfOk result (λ v. map Some v.items ≡ map (λ r. slice_get r.items position) table.now) }
{
    let mut nodes = Vec::with_capacity(alloc, table.len())?;
    for i in 0..table.len() {
        nodes.push(node_at(&table[i], position)?)?;
    }
    Ok(nodes)
}

/// The node at a position.
fn node_at(row: &[PredNode], position: usize) -> Result<PredNode, AllocError>
    requires { position < length row.now }
    ensures { IfOk result (λ n. slice_get row.now position ≡ Some n) }
{
    row[position].copy()
}
