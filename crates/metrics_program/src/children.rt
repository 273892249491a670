//! The children of a script, by their numbers.
ghost use Rattle.std.specs.Prelude.{◌≡◌, true, false};
ghost use Rattle.metrics_program.specs.Children.{AreOne, HasOne};

use registry_state::Handle;

/// Whether both handles are of one child of a registry: of one kind, and of one slot.
fn are_one(a: &Handle, b: &Handle) -> bool
    ensures one { result ≡ true → AreOne a.now b.now }
    ensures two { result ≡ false → ¬ (AreOne a.now b.now) }
{
    match a {
        Handle::Counter(a) => match b {
            Handle::Counter(b) => a.slot == b.slot,
            _ => false,
        },
        Handle::Histogram(a) => match b {
            Handle::Histogram(b) => a.slot == b.slot,
            _ => false,
        },
        Handle::Gauge(a) => match b {
            Handle::Gauge(b) => a.slot == b.slot,
            _ => false,
        },
    }
}

/// Whether a child has a number.
pub(crate) fn has_number(children: &[Handle], handle: &Handle) -> bool
    ensures there { result ≡ true → HasOne children.now handle.now }
    ensures none { result ≡ false → ¬ (HasOne children.now handle.now) }
{
    for child in children {
        if are_one(child, handle) {
            return true;
        }
    }
    false
}
