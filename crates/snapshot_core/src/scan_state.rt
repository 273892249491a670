// A scan as its user calls it.
ghost use Rattle.std.specs.Prelude.{◌≡◌, ℕ, ◌≤◌, List, [], ◌∷◌, ◌++◌, length, not, option_map, MatchOption};
ghost use Rattle.snapshot_core.specs.Sized.{IsSized};

use crate::next::Next;
use crate::scan::Scan;

/// A scan of 1 to 32 workers as a machine without registers: it says what comes next, and is told what that read met. It
/// takes no memory.
#[derive(Clone, Copy)]
pub struct ScanState {
    pub(crate) scan: Scan,
    ghost sized: { IsSized scan },
}

impl ScanState {
    ghost use Rattle.snapshot_core.specs.Next.{Comes};
    ghost use Rattle.snapshot_core.specs.Tries.{Read};
    ghost use Rattle.snapshot_core.specs.Told.{WasTold, workers_of, next_of, lent_by};

    /// A scan of `n` workers that was told nothing.
    pub fn new(n: usize) -> ScanState
        requires { (1 ≤ n) × (n ≤ 32) }
        ensures size { workers_of result ≡ n }
        ensures told { WasTold result [] }
    {
        ScanState { scan: Scan::new(n) }
    }

    /// What comes next: the read that the scan is to be told, or how it ended.
    pub fn next(&self) -> Next
        ensures next { result ≡ next_of self.now }
        ensures comes { (reads : List Read) → WasTold self.now reads → Comes (workers_of self.now) reads result }
    {
        self.scan.next
    }

    /// Tells the scan the next read of its first collect: the worker's number, and whether its row was read whole.
    pub fn first(&mut self, number: u64, whole: bool)
        requires { (place : ℕ) × (next_of self.old ≡ Next.First place) }
        ensures size { workers_of self.new ≡ workers_of self.old }
        ensures told { (reads : List Read) (r : Read) → WasTold self.old reads → next_of self.old ≡ Next.First r.place
            → r.number ≡ number
            → r.torn ≡ not whole → WasTold self.new (reads ++ r ∷ []) }
    {
        self.scan.first(number, whole);
    }

    /// Tells the scan the next read of its second collect: the worker's number.
    pub fn second(&mut self, number: u64)
        requires { (place : ℕ) × (next_of self.old ≡ Next.Second place) }
        ensures size { workers_of self.new ≡ workers_of self.old }
        ensures told { (reads : List Read) (r : Read) → WasTold self.old reads → next_of self.old ≡ Next.Second r.place
            → r.number ≡ number
            → WasTold self.new (reads ++ r ∷ []) }
    {
        self.scan.second(number);
    }

    /// Tells the scan the vector that the asked worker lends, one number for each worker: none where its version was torn
    /// or has no view.
    pub fn asked(&mut self, vector: Option<&[u64]>)
        requires next { (place : ℕ) × (next_of self.old ≡ Next.Ask place) }
        requires vector { MatchOption vector (Unit {0}) (λ v. length v.now ≡ workers_of self.old) }
        ensures size { workers_of self.new ≡ workers_of self.old }
        ensures told { (reads : List Read) (r : Read) → WasTold self.old reads → next_of self.old ≡ Next.Ask r.place
            → lent_by r ≡ option_map (λ v. v.now) vector.entry → WasTold self.new (reads ++ r ∷ []) }
    {
        self.scan.asked(vector);
    }
}
