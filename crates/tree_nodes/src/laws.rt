//! A law about built trees. The function's body is empty: its contract is the law.
ghost use Rattle.tree_nodes.specs.Laws.{LinesHaveOneBuild};

/// Lines and drawn vertices have one built tree: whatever meets the contract of `build_lines` has the same vertices,
/// segs, subsectors and nodes, each in the same order.
pub fn lines_have_one_build()
    ensures { LinesHaveOneBuild }
{}
