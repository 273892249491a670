//! How a try of a scan ends.
ghost use Rattle.std.specs.Prelude.{◌≡◌, true, false};
ghost use Rattle.snapshot_scan.specs.TryEnds.{is_clean, is_quiet};

/// How a try of a scan ended.
#[derive(Clone, Copy, Debug, PartialEq, Eq)]
pub(crate) enum TryEnd {
    /// Each number was found again, and each was the remembered one: nothing has changed.
    Quiet,
    /// Each number was found again.
    Clean,
    /// Some number rose between its two loads.
    Failed,
}

impl TryEnd {
    // The end of a try whose numbers were all found again, if it is `clean`, and were all `known`.
    #[inline]
    pub(crate) fn of(clean: bool, known: bool) -> TryEnd
        ensures clean { is_clean result ≡ clean }
        ensures quiet { is_quiet result ≡ true → known ≡ true }
        ensures other { is_clean result ≡ true → is_quiet result ≡ false → known ≡ false }
    {
        match (clean, known) {
            (true, true) => TryEnd::Quiet,
            (true, false) => TryEnd::Clean,
            (false, _) => TryEnd::Failed,
        }
    }

    // Whether each number was found again.
    #[inline]
    pub(crate) fn is_clean(self) -> bool
        ensures { result ≡ is_clean self }
    {
        !matches!(self, TryEnd::Failed)
    }

    // Whether nothing has changed.
    #[inline]
    pub(crate) fn is_quiet(self) -> bool
        ensures { result ≡ is_quiet self }
    {
        matches!(self, TryEnd::Quiet)
    }
}
