//! Why a pool hands no workers back.
ghost use Rattle.std.specs.Prelude.{◌≡◌, true, false, ◌⊎◌};
ghost use Rattle.worker_pool.specs.Faults.{pool_fault_number, ComesBefore};

use thiserror::Error;

/// Why a pool hands no workers back. Of several faults the first of this list is told, of several of one kind the one of the
/// least line or worker, and of two refusals of one line that of the lesser worker.
#[derive(Clone, Copy, Debug, PartialEq, Eq, Error)]
pub enum PoolFault {
    /// Refusals 16, 15, 11 and 12: a worker refused the job of this line, and by which number. It did those before it in its
    /// list, and none after it.
    #[error("line {line} was refused by {number}")]
    Refused {
        /// The job's line.
        line: u64,
        /// The number of the worker's refusal.
        number: u8,
    },
    /// Refusal 29: the gate stayed shut for this worker, by its place.
    #[error("the gate stayed shut for worker {worker}")]
    GateShut {
        /// The worker's place among those that were handed in.
        worker: usize,
    },
    /// Refusal 30: the system gave no thread for this worker, by its place, and so for none after it.
    #[error("no thread for worker {worker}")]
    NoThread {
        /// The worker's place among those that were handed in.
        worker: usize,
    },
    /// Refusal 6: a growth was refused. No job was done.
    #[error("no memory")]
    NoMemory,
}

impl PoolFault {
    /// The refusal's number.
    pub fn number(&self) -> u8
        ensures { result ≡ pool_fault_number self.now }
    {
        match *self {
            PoolFault::Refused { line: _, number } => number,
            PoolFault::GateShut { worker: _ } => 29,
            PoolFault::NoThread { worker: _ } => 30,
            PoolFault::NoMemory => 6,
        }
    }

    /// Whether this fault is told rather than the other.
    fn comes_before(&self, other: &PoolFault) -> bool
        ensures before { result ≡ true → ComesBefore self.now other.now }
        ensures not_before { result ≡ false → ¬ (ComesBefore self.now other.now) }
    {
        match *self {
            PoolFault::Refused { line, .. } => match *other {
                PoolFault::Refused { line: of_other, .. } => line < of_other,
                _ => true,
            },
            PoolFault::GateShut { worker } => match *other {
                PoolFault::Refused { .. } => false,
                PoolFault::GateShut { worker: of_other } => worker < of_other,
                _ => true,
            },
            PoolFault::NoThread { worker } => match *other {
                PoolFault::NoThread { worker: of_other } => worker < of_other,
                PoolFault::NoMemory => true,
                _ => false,
            },
            PoolFault::NoMemory => false,
        }
    }

    /// The one of two faults that is told.
    pub(crate) fn first(self, other: PoolFault) -> PoolFault
        ensures { (ComesBefore other self × (result ≡ other)) ⊎ (¬ (ComesBefore other self) × (result ≡ self)) }
    {
        if other.comes_before(&self) {
            other
        } else {
            self
        }
    }
}
