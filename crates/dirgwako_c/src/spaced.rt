//! What C calls to have bounds by rule.
ghost use Rattle.std.specs.Prelude.{◌≡◌, length};
ghost use Rattle.bucket_math.specs.Bounds.{AreBounds};
ghost use Rattle.dirgwako.specs.Spaced.{linear_at, exponential_at};
ghost use Rattle.dirgwako_c.specs.About.{FillsBounds};

use dirgwako::{exponential, linear};

/// Fills a list with bounds, of which the first is `start` and each other `width` above the one before: [`dirgwako::linear`].
///
/// Answers 10, these numbers are no bounds: there are more than 24, one is over 2^48 - 1, or `width` is 0 and there are two. The
/// list is as it was.
#[unsafe(no_mangle)]
pub extern "C" fn dirgwako_c_linear(start: u64, width: u64, bounds: &mut [u64]) -> u32
    ensures { FillsBounds (linear_at start width) result bounds.old bounds.new }
{
    match linear(start, width, bounds.len()) {
        Ok(made) => {
            bounds.copy_from_slice(made.as_slice());
            0
        }
        Err(_) => 10,
    }
}

/// Fills a list with bounds, of which the first is `start` and each other `factor` times the one before:
/// [`dirgwako::exponential`].
///
/// Answers 10, these numbers are no bounds: there are more than 24, one is over 2^48 - 1, or there are two and `start` is 0 or
/// `factor` is below
/// 2. The list is as it was.
#[unsafe(no_mangle)]
pub extern "C" fn dirgwako_c_exponential(start: u64, factor: u64, bounds: &mut [u64]) -> u32
    ensures { FillsBounds (exponential_at start factor) result bounds.old bounds.new }
{
    match exponential(start, factor, bounds.len()) {
        Ok(made) => {
            bounds.copy_from_slice(made.as_slice());
            0
        }
        Err(_) => 10,
    }
}
