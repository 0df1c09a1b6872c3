//! Laws of orders of tables.

ghost use Rattle.sl_faithful_limits.specs.OrderLaws.{GraphsHaveOrders, TablesKeepLimits};

/// Where no node of a graph reaches itself, there is an order in which each stands behind its
/// successors.
pub fn graphs_have_orders()
    ensures { GraphsHaveOrders }
{}

/// Tables that have their constructors and keep rules 32 to 38 keep the limits of decoded trees.
pub fn tables_keep_limits()
    ensures { TablesKeepLimits }
{}
