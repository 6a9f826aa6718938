ghost use Rattle.std.specs.Prelude.{◌≡◌, ◌≤◌};
ghost use Rattle.fr_edges.specs.Faults.{Rose};

/// Which calls of an edge in memory fail, how many calls were made and how many of them failed.
#[derive(Debug, Drop)]
pub struct Schedule {
    pub fails: Vec<u32>,
    pub calls: u64,
    pub faults: u64,
}

impl Schedule {
    ghost use Rattle.fr_edges.specs.Memory.{next_fails, one_more};

    /// No call was made. The calls numbered in `fails`, from 1, will fail.
    pub fn new(fails: Vec<u32>) -> Schedule
        ensures { result ≡ record { fails = fails; calls = 0; faults = 0 } }
    {
        Schedule {
            fails,
            calls: 0,
            faults: 0,
        }
    }

    /// Whether the next call fails.
    pub fn next_fails(&self) -> bool
        ensures { result ≡ next_fails self.now }
    {
        self.fails
            .iter()
            .any(|n| u64::from(*n) == self.calls.saturating_add(1))
    }

    /// A call was made that failed.
    #[tactic(auto, using(crate::proofs::Counting::one_more_rose))]
    pub fn count_fault(&mut self)
        ensures rose { Rose self.old.faults self.new.faults }
        ensures never_falls { self.old.faults ≤ self.new.faults }
        ensures counted { self.new ≡ record self.old { calls = one_more self.old.calls; faults = one_more self.old.faults } }
    {
        self.calls = self.calls.saturating_add(1);
        self.faults = self.faults.saturating_add(1);
    }

    /// A call was made that didn't fail.
    pub fn count_call(&mut self)
        ensures { self.new ≡ record self.old { calls = one_more self.old.calls } }
    {
        self.calls = self.calls.saturating_add(1);
    }
}
