// The steps of a scan as the machine of events takes them: each gives the very scan.
ghost use Rattle.std.specs.Prelude.{◌≡◌, option_map, take};
ghost use Rattle.ledger_core.specs.Limits.{AreWorkers};
ghost use Rattle.snapshot_core.specs.Scan.{new_scan, first_by, second_by, asked_by};

use crate::scan::Scan;
use crate::scan_state::ScanState;

impl ScanState {
    /// A scan of `n` workers that was told nothing.
    pub(crate) fn fresh(n: usize) -> ScanState
        requires { AreWorkers n }
        ensures { result.scan ≡ new_scan n }
    {
        ScanState { scan: Scan::new(n) }
    }

    /// Takes the next read of the first collect, where that comes next.
    #[tactic(auto, using(crate::proofs::Sized::sized_first))]
    pub(crate) fn take_first(&mut self, number: u64, whole: bool)
        ensures { self.new.scan ≡ first_by number whole self.old.scan self.old.scan.next }
    {
        self.scan.first(number, whole);
    }

    /// Takes the next read of the second collect, where that comes next.
    #[tactic(auto, using(crate::proofs::Sized::sized_second))]
    pub(crate) fn take_second(&mut self, number: u64)
        ensures { self.new.scan ≡ second_by number self.old.scan self.old.scan.next }
    {
        self.scan.second(number);
    }

    /// Takes what the asked worker lends, where one is asked.
    #[tactic(auto, using(crate::proofs::Sized::sized_asked))]
    pub(crate) fn take_asked(&mut self, vector: Option<&[u64]>)
        ensures { self.new.scan ≡ asked_by (option_map (λ v. v.now) vector.entry) self.old.scan self.old.scan.next }
    {
        self.scan.asked(vector);
    }

    /// The numbers that the first collect of this try has read.
    pub(crate) fn opened(&self) -> &[u64]
        ensures { result.now ≡ take self.now.scan.n self.now.scan.opened }
    {
        &self.scan.opened[..self.scan.n]
    }

    /// How many tries there were, the one in progress too.
    pub(crate) fn tries(&self) -> usize
        ensures { result ≡ self.now.scan.tries }
    {
        self.scan.tries
    }
}
