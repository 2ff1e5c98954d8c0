ghost use Rattle.std.specs.Prelude.{◌<◌, ◌≤◌, ◌↔◌, ℕ, nat_eq, List, Vec, Contains, length};
ghost use Rattle.std.specs.List.{IsDistinct};
ghost use Rattle.std.specs.declared.alloc.Global.{Global};
ghost use Rattle.shape_order.specs.Chain.{IsRecursive};
ghost use Rattle.shape_order.specs.Levels.{AreLevels, HasSteps};
ghost use Rattle.shape_order.specs.Order.{IsOrdered};
ghost use Rattle.shape_order.specs.Refs.{IsWithin, refs_of};

/// Where each shape of an order stands behind those that it refers to, none of them reaches itself.
pub fn an_order_has_no_cycle()
    ensures { (to : ℕ → List ℕ) (order : List ℕ) → IsOrdered to order → IsDistinct nat_eq order
        → (i : ℕ) → Contains order i → IsRecursive to i → ⊥ }
{}

/// The level of a shape is the length of the longest chain of references from it.
pub fn levels_are_the_longest_chains()
    ensures { (refs : List (Vec ℕ Global)) (level : ℕ → ℕ) → IsWithin (refs_of refs) (length refs)
        → AreLevels (refs_of refs) (length refs) level
        → (k i : ℕ) → i < length refs → HasSteps (refs_of refs) k i ↔ (k ≤ level i) }
{}
