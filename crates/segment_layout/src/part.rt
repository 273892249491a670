/// What one word of a buffer is: a buffer has a row, a flag, a vector and the lent totals, in this order.
#[derive(Clone, Copy, Debug)]
pub enum Item {
    /// A word of the row, below `w`.
    Row { word: usize },
    /// The flag.
    Flag,
    /// The number that the view's vector has of a worker, below `n`.
    Vector { worker: usize },
    /// The total that is lent of a word of the row, below `w`.
    Lent { word: usize },
}

/// What one word of a segment is. Buffers are 0 and 1, and version `s` uses buffer `s` mod 2.
#[derive(Clone, Copy, Debug)]
pub enum Part {
    /// The segment's number, its first word.
    Number,
    /// A word of a buffer's row, below `w`.
    Row { buffer: usize, word: usize },
    /// A buffer's flag.
    Flag { buffer: usize },
    /// The number that the view's vector, in a buffer, has of a worker, below `n`.
    Vector { buffer: usize, worker: usize },
    /// A buffer's lent total of a word of the row, below `w`.
    Lent { buffer: usize, word: usize },
}
