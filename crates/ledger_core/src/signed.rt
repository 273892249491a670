ghost use Rattle.std.specs.Prelude.{◌<◌, ◌^◌, ◌-ℤ◌, pos};
ghost use Rattle.ledger_core.specs.Signed.{IsSigned};

use crate::totals::GaugeTotals;

impl GaugeTotals {
    /// The gauge's value, its ups less its downs: whether it is below zero, and how far from zero.
    #[inline]
    pub fn signed(&self) -> (bool, u64)
        ensures value { IsSigned (pos self.now.up -ℤ pos self.now.down) result.0 result.1 }
        ensures words { (self.now.up < 2 ^ 64) × (self.now.down < 2 ^ 64) }
    {
        if self.up >= self.down {
            (false, self.up - self.down)
        } else {
            (true, self.down - self.up)
        }
    }
}
