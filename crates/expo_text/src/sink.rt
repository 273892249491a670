ghost use Rattle.std.specs.Prelude.{List, [], ◌++◌, decimal};

/// What takes the bytes of a text, piece by piece. One that can take no more remembers it, and takes nothing from then on.
pub(crate) trait Sink {
    ghost use Rattle.std.specs.Prelude.{ℕ};

    ghost took: { Self → Self → List ℕ → Type 0 };

    /// Takes these bytes.
    fn put(&mut self, bytes: &[u8])
        ensures { took self.old self.new bytes.now };

    /// Takes the decimal digits of a number.
    fn put_decimal(&mut self, number: u64)
        ensures { took self.old self.new (decimal number) };

    ghost nothing: { (a : Self) → took a a [] };

    ghost chain: { (a b c : Self) (xs ys : List ℕ) → took a b xs → took b c ys → took a c (xs ++ ys) };
}
