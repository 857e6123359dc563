// A count that every end keeps of its failures.
ghost use Rattle.std.specs.Prelude.{◌≡◌, ◌≤◌, ◌↔◌, ◌+◌, ◌-◌, ◌^◌, Ok, min, IsErr, IfOk, OnOk};
ghost use Rattle.ov_host.specs.Host.{Rose};

use ov_host::Failed;
use std::io;
use std::marker::Model;

/// A count that stays at 2^64 - 1 once it is there.
#[derive(Drop)]
pub struct Count {
    value: u64,
}

impl Model for Count {
    ghost use Rattle.std.specs.Prelude.{ℕ};

    ghost Value = { ℕ };

    ghost view = { λ c. c.value };
}

impl Count {
    pub fn new() -> Count
        ensures { result ≡ 0 }
    {
        Count { value: 0 }
    }

    pub fn add(&mut self, n: u64)
        ensures added { self.new ≡ min (self.old + n) (2 ^ 64 - 1) }
        ensures later { self.old ≤ self.new }
    {
        self.value = self.value.saturating_add(n);
    }

    /// Passes an outcome on, and counts it where it is a failure.
    pub fn checked<T>(&mut self, outcome: io::Result<T>) -> Result<T, Failed>
        ensures later { self.old ≤ self.new }
        ensures fails { IsErr result ↔ IsErr outcome }
        ensures cause { IsErr result → Rose self.old self.new }
        ensures same { IfOk result (λ value. outcome ≡ Ok value) }
        ensures unchanged { OnOk result (self.new ≡ self.old) }
    {
        match outcome {
            Ok(value) => Ok(value),
            Err(_) => {
                self.add(1);
                Err(Failed)
            }
        }
    }
}
