//! How much an update knows of the version that it publishes.
ghost use Rattle.std.specs.Prelude.{◌≡◌};
ghost use Rattle.snapshot_update.specs.Plans.{is_known, is_same, is_repeat};

/// What an update's scan and its touched words come to. A plan says all that those below it say; the head of `update.rt` has a
/// table of what each is for.
#[derive(Clone, Copy, Debug, PartialEq, Eq)]
pub(crate) enum Plan {
    /// The same items as before are recent, too: the update repeats the one before it, and nothing has to be listed anew.
    Repeats,
    /// The touched words are those of the update before, and nothing more is late than was.
    Same,
    /// The late and the touched items are all at which the next version differs from the shown buffer.
    Known,
    /// It may differ anywhere.
    Whole,
}

impl Plan {
    /// Whether all items at which the next version differs from the shown buffer are listed.
    #[inline(always)]
    pub(crate) fn is_known(self) -> bool
        ensures { result ≡ is_known self }
    {
        !matches!(self, Plan::Whole)
    }

    /// Whether neither the touched nor the late items have changed.
    #[inline(always)]
    pub(crate) fn is_same(self) -> bool
        ensures { result ≡ is_same self }
    {
        matches!(self, Plan::Repeats | Plan::Same)
    }

    /// Whether the update repeats the one before it.
    #[inline(always)]
    pub(crate) fn is_repeat(self) -> bool
        ensures { result ≡ is_repeat self }
    {
        matches!(self, Plan::Repeats)
    }
}
