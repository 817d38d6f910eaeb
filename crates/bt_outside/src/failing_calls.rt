//! Which calls of an object in memory are to fail.
ghost use Rattle.std.specs.Prelude.{◌≡◌, ◌↔◌, ◌++◌, [], IsTrue, OnOk, OnErr, Contains, IsPermutation};

use bt_base::OutOfMemory;
use std::alloc::Global;
use std::marker::Model;

/// The numbers of those calls, in rising order.
#[derive(Drop)]
pub struct FailingCalls {
    numbers: Vec<u64>,
}

impl Model for FailingCalls {
    ghost use Rattle.std.specs.Prelude.{List, ℕ};
    ghost use Rattle.std.specs.List.Sorted.{IsNonDecreasing};

    ghost Value = { List ℕ };

    ghost view = { λ f. f.numbers.items };

    ghost invariant = { λ f. IsNonDecreasing f.numbers.items };
}

impl FailingCalls {
    pub fn new(alloc: Global) -> FailingCalls
        ensures { result ≡ [] }
    {
        FailingCalls {
            numbers: Vec::new(alloc),
        }
    }

    pub fn add(&mut self, numbers: &[u64]) -> Result<(), OutOfMemory>
        ensures ok { OnOk result (IsPermutation (self.old ++ numbers.now) self.new) }
        ensures err { OnErr result (self.new ≡ self.old) }
    {
        self.numbers.extend_from_slice(numbers)?;
        self.numbers.sort_unstable();
        Ok(())
    }

    pub fn has(&self, number: u64) -> bool
        ensures { IsTrue result ↔ Contains self.now number }
    {
        self.numbers.binary_search(&number).is_ok()
    }
}
