ghost use Rattle.std.specs.Prelude.{◌≡◌};

/// Refusal 6: there was no memory for what a seat's scans work with. The seat is handed back.
#[derive(Drop)]
pub struct NoMemoryForSeat<T> {
    /// The seat, as it was.
    pub seat: T,
}

impl<T> NoMemoryForSeat<T> {
    /// The refusal's number: 6.
    pub fn number(&self) -> u8
        ensures { result ≡ 6 }
    {
        6
    }
}
