/// What a scan wants next, or how it ended.
#[derive(Clone, Copy, Debug, PartialEq, Eq)]
pub enum Next {
    /// The number and the row of this worker, for the first collect.
    First(usize),
    /// The number of this worker again, for the second collect.
    Second(usize),
    /// The view that this worker lends.
    Ask(usize),
    /// The scan is over: the numbers of its last first collect are all segments at one moment.
    Direct,
    /// The scan is over: the view that this worker lent is all segments at one moment.
    Lent(usize),
    /// The scan is over without a view. In its last try `worker` is the least worker that failed, and its two numbers
    /// were `first` and `last`.
    GaveUp {
        worker: usize,
        first: u64,
        last: u64,
    },
}
