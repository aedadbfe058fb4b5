// Laws, each a function whose contract is the statement.
ghost use Rattle.ui_order.specs.Laws.{BeginsFound, KeepsFound, ReadsOneMore, ClosesAtEnd};
ghost use Rattle.ui_order.specs.Laws.{ComputesCycles, TakesImportsFirst, TakesAll, TakesNoCycle};
ghost use Rattle.ui_order.specs.Laws.{ArrangesAcyclic};

/// At the beginning, and then after each path that was read, the root is found, each import of a
/// read path is found, and no path is both read and unread. A least unread path makes one more read
/// path. Where nothing is unread, each import of a read path is read.
pub fn discovery_keeps()
    ensures begins { BeginsFound }
    ensures keeps { KeepsFound }
    ensures reads { ReadsOneMore }
    ensures closes { ClosesAtEnd }
{}

/// A path is on a cycle exactly where at most as many imports as there are paths lead back to it.
pub fn cycles_are_cycles()
    ensures { ComputesCycles }
{}

/// In the build order each path is of the graph, stands once, and stands after its imports. Without
/// a cycle it has every path; it has no path that is on a cycle; and it is answered exactly where
/// no path is on one.
pub fn order_is_whole()
    ensures imports_first { TakesImportsFirst }
    ensures all { TakesAll }
    ensures no_cycle { TakesNoCycle }
    ensures acyclic { ArrangesAcyclic }
{}
