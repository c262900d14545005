//! The node of a branch and its tree.
//!
//! It promises that the regions of a node's entry and children partition the branch's, and that the list of a tree is comprehensive and of
//! the ring.
//! Below it stand the emptiness run (cgs_radical), basis runs (cgs_basis), Dickson bases (cgs_dickson) and entries (cgs_entry).
//! Read first `node_of` (specs/NodeRun), `children_of` (specs/Nodes) and `IsComprehensive` (of cgs_entry).
#![tactic(auto)]

mod branch;
mod children;
mod kind;
mod laws;
mod lists;
mod node;
mod root;

pub use branch::{Branch, Vanishing};
pub use kind::{BranchKind, Limits};
pub use laws::{
    entries_are_of_ring, entries_show_one, heights_fall, list_is_comprehensive, node_is_sound,
    nodes_are_nodes, other_children_are_refused, tested_are_consistent, tree_examples,
    tree_is_comprehensive,
};
pub use root::root_branch;
