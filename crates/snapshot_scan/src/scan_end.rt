/// How a scan ended.
#[derive(Clone, Copy, Debug, PartialEq, Eq)]
pub enum ScanEnd {
    /// The numbers of its last try are all segments at one moment. It is quiet where the first try was the last one and
    /// found each row under the number that was remembered.
    Direct { quiet: bool },
    /// The view that a worker lent is all segments at one moment.
    Lent,
    /// After N + 2 tries it has no view.
    GaveUp,
}
