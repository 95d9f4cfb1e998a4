// What holds of every order.
ghost use Rattle.std.specs.Prelude.{◌≡◌, ◌↔◌, ◌<◌, ℕ, List, Some, length, take, slice_index, All, IsTrue};
ghost use Rattle.cat_order.specs.Order.{IsOrder, is_listed};
ghost use Rattle.cat_order.specs.Computed.{order_of};
ghost use Rattle.cat_order.specs.Cycle.{DependsOn, IsOnCycle};
ghost use Rattle.cat_order.specs.Cause.{HasNoOrder};

/// Items have at most one order.
pub fn the_order_is_one()
    ensures { (deps : List (List ℕ)) (one : List ℕ) (other : List ℕ)
        → IsOrder deps one → IsOrder deps other → one ≡ other }
{}

/// The order is the list that `order_of` computes.
pub fn the_order_is_computed()
    ensures { (deps : List (List ℕ)) (listed : List ℕ)
        → (order_of deps ≡ Some listed) ↔ IsOrder deps listed }
{}

/// The order is as long as there are items, and each of its elements is an item.
pub fn the_order_lists_items()
    ensures length { (deps : List (List ℕ)) (listed : List ℕ)
        → IsOrder deps listed → length listed ≡ length deps }
    ensures items { (deps : List (List ℕ)) (listed : List ℕ)
        → IsOrder deps listed → All (λ item. item < length deps) listed }
{}

/// In the order, what an item depends on stands in front of it.
pub fn the_order_puts_dependencies_first()
    ensures { (deps : List (List ℕ)) (listed : List ℕ) (place : ℕ) (other : ℕ)
        → IsOrder deps listed → place < length listed → DependsOn deps (slice_index listed place) other
        → IsTrue (is_listed (take place listed) other) }
{}

/// Where an item is on a cycle, items have no order.
pub fn a_cycle_leaves_no_order()
    ensures { (deps : List (List ℕ)) (item : ℕ) → IsOnCycle deps item → HasNoOrder deps }
{}
