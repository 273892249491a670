//! An update: a scan, the fills, and the store of the number.
//!
//! A worker stores only the words that change, and compares only those that may have. These lists tell which; each of them says
//! either its items, or that it may be all:
//!
//! | list | its items are where | who writes it |
//! |---|---|---|
//! | `recent` | the hidden buffer may differ from the shown one | `fill_next` |
//! | `late` | the shown buffer may differ from what an update of nothing would publish now | `turn`; `know_next`, what the scan found anew; `Worker::scan`, which makes it all |
//! | `touched` | the list of operations changed a word of the row | `touch` |
//! | `changed_totals` of the scan's memory | a total may differ from before the scan | `ScanMemory::scan` |
//!
//! So where it is known that they tell, the next version differs from the shown buffer at most at the late and at the touched
//! items, and from the hidden one at the recent ones besides. Whether it is known, `know_next` tells by the end of the scan and
//! by these:
//!
//! | flag | it says that | who sets it |
//! |---|---|---|
//! | `row_known` of the images | the row that is remembered of the worker's own segment is its row | `publish_anew`; `Worker::scan` clears it |
//! | `joined` of the images | just the late and the touched items are recent | `fill_version`, `turn`; `Worker::scan` clears it |
//! | `again` | the touched words are those of the update before | `touch` |
//!
//! Its answer is the `Plan`, by which the steps behind it go:
//!
//! | plan | where | what the update does |
//! |---|---|---|
//! | `Repeats` | it is `Same`, and `joined` | stores its number, the touched words and their totals (`publish_again`); lists nothing |
//! | `Same` | it is `Known`, the scan was quiet, and `again` | as `Known`, and then `joined` may be noted |
//! | `Known` | the scan ended direct with the worker's own number | compares the items of three lists (`fill_known`) |
//! | `Whole` | else | compares the whole buffer (`fill_all`) |
ghost use Rattle.std.specs.Prelude.{◌≡◌, ◌+◌, ◌<◌, true, length, OnOk, OnErr, IfErr};
ghost use Rattle.ledger_core.specs.Ops.{sum_ops};
ghost use Rattle.ledger_core.specs.Row.{Accepts};
ghost use Rattle.ledger_core.specs.OpFault.{IsOpFault};
ghost use Rattle.segment_layout.specs.Layout.{IsGeometry};
ghost use Rattle.register_rule.specs.Sums.{word_after};
ghost use Rattle.register_rule.specs.Seats.{worker_of, index_of, IsWorkSeatOf};
ghost use Rattle.snapshot_update.specs.Fit.{IsFit};
ghost use Rattle.snapshot_update.specs.Updated.{IsUpdated};

use crate::buffer_images::BufferImages;
use crate::known::know_next;
use crate::op_words::{OpWords, only_op};
use crate::publishing::publish_next;
use crate::scanning::scan_for_update;
use crate::touched::touch;
use ledger_core::{Op, OpFault, Row};
use register_rule::{Board, WorkSeat};
use snapshot_scan::ScanMemory;

/// An update: the operations are added to the row, a scan is made, and the version is published with the view of the scan, or
/// without one where that was given up. It takes no memory and waits for nobody; where a scan asks the workers to rest, by a
/// request after the last one that was `rested` for, it rests first, for so many looks at most as [`Board::rest_if_hushed`]
/// tells.
#[inline(always)]
pub(crate) fn update<const N: usize, const C: usize, const H: usize, const G: usize>(
    board: &Board<N, C, H, G>,
    seat: &mut WorkSeat,
    row: &mut Row<C, H, G>,
    memory: &mut ScanMemory<N, C, H, G>,
    images: &mut BufferImages,
    rested: &mut u64,
    ops: &[Op],
) -> Result<(), OpFault>
    requires of_board { IsWorkSeatOf board.now seat.old }
    requires geometry { IsGeometry N C H G }
    requires room { length (worker_of seat.old).work.made + 1 < 18446744073709551616 }
    requires fit { IsFit N C H G (index_of seat.old) (length (worker_of seat.old).work.made) row.old memory.old
        images.old (worker_of seat.old) }
    ensures of_board { IsWorkSeatOf board.now seat.new }
    ensures index { index_of seat.new ≡ index_of seat.old }
    ensures fit { IsFit N C H G (index_of seat.new) (length (worker_of seat.new).work.made) row.new memory.new
        images.new (worker_of seat.new) }
    ensures updated { OnOk result (IsUpdated N C H G (index_of seat.old) ops.now (worker_of seat.old) (worker_of seat.new)) }
    ensures accepted { OnOk result (Accepts C H G (word_after (sum_ops C H) (worker_of seat.old).work.made) ops.now) }
    ensures row_known { OnOk result (images.new.row_known ≡ true) }
    ensures fault { IfErr result (IsOpFault C H G (word_after (sum_ops C H) (worker_of seat.old).work.made) ops.now) }
    ensures unchanged { OnErr result ((seat.new ≡ seat.old) × (row.new ≡ row.old) × (memory.new ≡ memory.old)
        × (images.new ≡ images.old) × (rested.new ≡ rested.old)) }
{
    // Before anything is stored, while the compiler still knows which operation a list of one has.
    let only = only_op(ops);
    row.try_apply(ops)?;
    let words = OpWords::of::<C, H, G>(only);
    let again = touch::<C, H, G>(ops, only, &mut images.touched, &mut images.spare);
    board.rest_if_hushed(rested);
    let ended = scan_for_update(board, seat, memory);
    let plan = know_next(seat, memory, images, ended, again);
    publish_next(board, seat, row, memory, images, ended, plan, ops, words);
    Ok(())
}
