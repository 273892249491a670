//! What the end of a scan tells.
ghost use Rattle.std.specs.Prelude.{◌≡◌, ◌↔◌, Bool, true, false, IsTrue};
ghost use Rattle.snapshot_scan.specs.declared.scan_end.ScanEnd.TheVariants.{Direct, GaveUp};
ghost use Rattle.snapshot_scan.specs.ScanMemories.{HasView};

use crate::scan_end::ScanEnd;

impl ScanEnd {
    /// Whether the scan has a view to lend.
    #[inline]
    pub fn has_view(self) -> bool
        ensures view { result ≡ true → HasView self }
        ensures none { result ≡ false → self ≡ GaveUp }
    {
        !matches!(self, ScanEnd::GaveUp)
    }

    /// Whether the scan found all that is remembered.
    #[inline]
    pub fn is_quiet(self) -> bool
        ensures { IsTrue result ↔ (self ≡ Direct true) }
    {
        matches!(self, ScanEnd::Direct { quiet: true })
    }

    /// Whether the scan ended direct: with numbers of its own.
    #[inline]
    pub fn is_direct(self) -> bool
        ensures { IsTrue result ↔ ((quiet : Bool) × (self ≡ Direct quiet)) }
    {
        matches!(self, ScanEnd::Direct { .. })
    }
}
