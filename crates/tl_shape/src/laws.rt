//! Laws of the definitions. Each is the contract of a function that does nothing.

ghost use Rattle.std.specs.Prelude.{List, ◌↔◌, ◌≡◌};
ghost use Rattle.std.specs.Cmp.{IsTotalOrder};
ghost use Rattle.std.specs.declared.cmp.Ordering.TheVariants.{Equal};
ghost use Rattle.tl_layout.specs.Coordinates.{Coordinates};
ghost use Rattle.tl_shape.specs.Chain.{Chain};
ghost use Rattle.tl_shape.specs.PointOrder.{points_cmp};
ghost use Rattle.tl_shape.specs.Turned.{IsTurned, turned};

/// Point lists are totally ordered, and two lists that compare as equal are equal.
pub fn point_lists_are_totally_ordered()
    ensures total { IsTotalOrder points_cmp }
    ensures exact { (points others : List Coordinates) → (points_cmp points others ≡ Equal ↔ (points ≡ others)) }
{}

/// Each chain has exactly one turned chain, and turning that one restores the chain.
pub fn each_chain_has_one_turned_chain()
    ensures exists { (chain : Chain) → IsTurned chain (turned chain) }
    ensures only { (chain other : Chain) → IsTurned chain other → other ≡ turned chain }
    ensures back { (chain other : Chain) → IsTurned chain other → IsTurned other chain }
{}
