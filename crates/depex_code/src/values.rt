// A stack of values of fixed size.
ghost use Rattle.std.specs.Prelude.{◌≡◌, ◌<◌, [], ◌∷◌, length};

use std::marker::Model;

/// The most values that a tree within the limit of opcodes can push.
pub const MOST_VALUES: usize = 1023;

/// A stack of values, the last one first. It allocates nothing.
#[derive(Drop)]
pub struct Values {
    held: [bool; MOST_VALUES],
    top: usize,
}

impl Model for Values {
    ghost use Rattle.std.specs.Prelude.{List, Bool, drop, ◌≤◌};

    ghost Value = { List Bool };

    ghost view = { λ v. drop v.top v.held };

    ghost invariant = { λ v. v.top ≤ 1023 };
}

impl Values {
    /// An empty stack.
    pub fn new() -> Values
        ensures { result ≡ [] }
    {
        Values {
            held: [false; MOST_VALUES],
            top: MOST_VALUES,
        }
    }

    /// Pushes a value.
    pub fn push(&mut self, value: bool)
        requires { length self.old < 1023 }
        ensures { self.new ≡ value ∷ self.old }
    {
        self.top -= 1;
        self.held[self.top] = value;
    }

    /// Removes the last value and returns it.
    pub fn pop(&mut self) -> bool
        requires { 0 < length self.old }
        ensures { self.old ≡ result ∷ self.new }
    {
        let value = self.held[self.top];
        self.top += 1;
        value
    }
}
