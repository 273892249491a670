use ledger_core::Op;

/// One event of a run. Actors 0 to n - 1 are the workers, n to n + 3 the readers. Events are numbered from 0.
#[derive(Drop)]
pub enum Event {
    /// A worker at rest begins an update with these operations, where its row accepts them and its number is not the
    /// greatest; a reader at rest begins a scan, where there are none. Anywhere else it changes nothing.
    Begin { actor: usize, ops: Vec<Op> },
    /// The actor's scan makes its next read, whole; a worker whose scan is over publishes. Anywhere else it changes
    /// nothing.
    Step { actor: usize },
    /// The actor's scan makes its next read, of the number alone. Anywhere else it changes nothing.
    Torn { actor: usize },
}
