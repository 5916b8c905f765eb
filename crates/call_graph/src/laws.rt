//! The laws of the call graph: how its definitions agree.
ghost use Rattle.call_graph.specs.Laws.{ReachIsByLists};
ghost use Rattle.call_graph.specs.NumberLaws.{ApartByNumbers};
ghost use Rattle.call_graph.specs.Numbers.{CallsByNumbers, PiecesByNumbers};
ghost use Rattle.call_graph.specs.OrderLaws.{OrderIsBottomUp};

/// One function reaches another exactly where some list of functions leads there, each of which calls the next.
pub fn reach_is_by_lists()
    ensures { ReachIsByLists }
{}

/// The order that places, of the pieces not yet placed whose callees in other pieces are all placed, the one with the
/// least function has each function of the module once, behind those in other pieces that it calls.
pub fn order_is_bottom_up()
    ensures { OrderIsBottomUp }
{}

/// Two functions of a module are in different pieces exactly where the numbers of their pieces differ.
pub fn apart_by_numbers()
    ensures { ApartByNumbers }
{}

/// By numbers a function calls another one exactly where it does by names.
pub fn calls_by_numbers()
    ensures { CallsByNumbers }
{}

/// Two functions are in one piece exactly where each reaches the other by numbers.
pub fn pieces_by_numbers()
    ensures { PiecesByNumbers }
{}
