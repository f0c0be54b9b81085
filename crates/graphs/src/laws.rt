// What orders and cycles have to do with each other. Each law is the contract of a function that does nothing.

ghost use Rattle.std.specs.Prelude.{ℕ, List};
ghost use Rattle.graphs.specs.Orders.{IsOrder, HasCycle};

/// A graph that has an order has no cycle: so the order that is found, and the cycle that is met, exclude each other.
pub fn an_order_has_no_cycle()
    ensures { (rows : List (List ℕ)) (order : List ℕ) → IsOrder rows order → HasCycle rows → ⊥ }
{}
