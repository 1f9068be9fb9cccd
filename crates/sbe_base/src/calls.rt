ghost use Rattle.std.specs.Prelude.{◌≡◌, ◌≤◌, ◌↔◌, IsTrue, IfOk};
ghost use Rattle.sbe_base.specs.Causes.{one_more};
ghost use Rattle.sbe_base.specs.Calls.{no_calls, next_number, IsListed};

use lists::NoMem;
use std::alloc::Global;
use std::marker::Model;

/// Counts the calls of an object in memory.
#[derive(Drop)]
pub struct Calls {
    failing: Vec<u64>,
    made: u64,
    faults: u64,
}

impl Model for Calls {
    ghost use Rattle.sbe_base.specs.Calls.{CallLog};

    ghost Value = { CallLog };

    ghost view = { λ calls. record { failing = calls.failing.items; made = calls.made; faults = calls.faults } };
}

impl Calls {
    /// No calls yet. The calls with the numbers in `failing` will fail.
    pub fn new(alloc: Global, failing: &[u64]) -> Result<Calls, NoMem>
        ensures { IfOk result (λ calls. calls ≡ no_calls failing.now) }
    {
        Ok(Calls {
            failing: Vec::from_slice(alloc, failing)?,
            made: 0,
            faults: 0,
        })
    }

    /// Counts one more call, and returns whether it must fail. The count stays at the largest number of 64 bits, so
    /// each later call has that number.
    pub fn count(&mut self) -> bool
        ensures listed { IsTrue result ↔ IsListed self.old }
        ensures counted { self.new ≡ record self.old { made = next_number self.old } }
    {
        self.made = self.made.saturating_add(1);
        self.failing.contains(&self.made)
    }

    /// Counts one more fault.
    pub fn fault(&mut self)
        ensures raised { self.new ≡ record self.old { faults = one_more self.old.faults } }
        ensures later { self.old.faults ≤ self.new.faults }
    {
        self.faults = self.faults.saturating_add(1);
    }
}

#[cfg(test)]
mod tests {
    use super::*;
    use std::test::Fail;

    #[test]
    fn the_last_number_stays(rt: HostRuntime) -> Result<(), Fail> {
        let mut calls = Calls {
            failing: Vec::from_slice(rt.alloc(), &[u64::MAX])?,
            made: u64::MAX - 2,
            faults: u64::MAX,
        };
        for listed in [false, true, true] {
            assert_eq!(rt; calls.count(), listed);
        }
        calls.fault();
        assert_eq!(rt; calls.faults, u64::MAX);
        Ok(())
    }
}
