// A text is one order.
ghost use Rattle.std.specs.Prelude.{◌≡◌, ◌≤◌, ◌+◌, ℕ, List, length};
ghost use Rattle.recorded_boot.specs.{declared.order.lines.StartOrder.StartOrder, OrderText.IsFirstBad, OrderText.IsOrder};

/// A text is one order, or it has one first bad line, and never both. An order has at most one start more than its text has bytes.
pub fn one_reading()
    ensures orders { (text : List ℕ) (a b : StartOrder) → IsOrder text a → IsOrder text b → a ≡ b }
    ensures faults { (text : List ℕ) (m n : ℕ) → IsFirstBad text m → IsFirstBad text n → m ≡ n }
    ensures apart { (text : List ℕ) (order : StartOrder) (line : ℕ) → IsOrder text order → IsFirstBad text line → ⊥ }
    ensures short { (text : List ℕ) (order : StartOrder) → IsOrder text order → length order.starts ≤ length text + 1 }
{}
