//! Bindings that nothing has yet.

ghost use Rattle.std.specs.Prelude.{◌≡◌, ◌+◌, ◌-◌, ◌^◌, ◌<◌, ◌≤◌, All, length};
ghost use Rattle.lay_out.specs.Free.{IsReady, Takes};

/// The bindings from one number on that are not among some, in rising order.
#[derive(Debug, Drop)]
pub struct Free {
    /// The bindings that are not free, in rising order.
    pub fixed: Vec<u32>,
    /// How many of these are behind.
    pub passed: usize,
    /// The first number that may be free.
    pub next: u32,
}

impl Free {
    /// Takes the first free binding.
    pub fn take(&mut self) -> u32
        requires ready { IsReady self.old }
        requires fits { self.old.next + (length self.old.fixed.items - self.old.passed) + 1 < 2 ^ 32 }
        ensures { Takes self.old result self.new }
    {
        while self.passed < self.fixed.len() && self.fixed[self.passed] <= self.next {
            if self.fixed[self.passed] == self.next {
                self.next += 1;
            }
            self.passed += 1;
        }
        let binding = self.next;
        self.next += 1;
        binding
    }
}
