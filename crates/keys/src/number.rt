// Keys that are numbers.
pub mod calls;
pub mod prints;

use std::marker::Model;

// 1 to 65,535; a number 0 can be made and is not lawful. A contract sees the number.
#[derive(Clone, Copy, PartialEq, Eq)]
pub struct Number {
    value: u16,
}

impl Model for Number {
    ghost use Rattle.std.specs.Prelude.{ℕ};

    ghost Value = { ℕ };

    ghost view = { λ n. n.value };

    ghost inverse = { λ n. record { value = n } };
}
