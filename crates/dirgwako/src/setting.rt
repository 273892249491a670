//! A gauge that one thread sets.
ghost use Rattle.std.specs.Prelude.{◌≡◌, [], ◌∷◌, pos, IfErr, OnOk, OnErr};
ghost use Rattle.rtrb.specs.Ring.{SameConsumer};
ghost use Rattle.page_crew.specs.Held.{recorders_of, first_of, feed_of};
ghost use Rattle.page_crew.specs.Publishing.{ArePublishedOn, IsPublishRefused};
ghost use Rattle.page_crew.specs.declared.change.Change.{Change};
ghost use Rattle.snapshot_update.specs.Workers.{index_of, member_of};
ghost use Rattle.dirgwako.specs.Recorders.{board_in, worker_in, ArePublished, IsPublishFault};

use crate::recorder::Recorder;
use ledger_core::Gauge;
use page_crew::{Change, PageRecorder, PublishFault, down, up};
use snapshot_update::CountFault;

/// A gauge that one thread sets, such as the length of a queue. Gauges go up and down by recorders; this keeps the value that it
/// was set to last, 0 at first, and goes up or down by the difference. What is shown is that value while nobody else counts on
/// the gauge. It is no copy: two of one gauge, each set, would add up.
#[derive(Debug, Drop)]
pub struct GaugeCell {
    gauge: Gauge,
    last: i64,
}

impl GaugeCell {
    ghost use Rattle.dirgwako.specs.Setting.{gauge_in, last_of, Moves};

    /// This gauge, which nobody has counted on.
    pub fn new(gauge: Gauge) -> GaugeCell
        ensures gauge { gauge_in result ≡ gauge }
        ensures last { last_of result ≡ pos 0 }
    {
        GaugeCell { gauge, last: 0 }
    }

    /// The value that it was set to last, 0 at first.
    pub fn value(&self) -> i64
        ensures { result ≡ last_of self.now }
    {
        self.last
    }

    /// The change that takes the gauge to this value, for a list that is published. Where it was, tell that by
    /// [`GaugeCell::told`].
    pub fn change_to(&self, value: i64) -> Change
        ensures { Moves self.now value result }
    {
        let by = value.abs_diff(self.last);
        if value < self.last {
            down(&self.gauge, by)
        } else {
            up(&self.gauge, by)
        }
    }

    /// The change to this value was published.
    pub fn told(&mut self, value: i64)
        ensures gauge { gauge_in self.new ≡ gauge_in self.old }
        ensures last { last_of self.new ≡ value }
    {
        self.last = value;
    }

    /// Sets the gauge: one version.
    ///
    /// # Errors
    ///
    /// As [`Recorder::up`]: 16, 15, 11, and 12 where all that the gauge went up or down by passes 2^48 - 1. Nothing has changed
    /// then.
    pub fn set<const N: usize, const C: usize, const H: usize, const G: usize>(
        &mut self,
        recorder: &mut Recorder<'_, N, C, H, G>,
        value: i64,
    ) -> Result<(), CountFault>
        ensures board { board_in recorder.new ≡ board_in recorder.old }
        ensures index { index_of (worker_in recorder.new) ≡ index_of (worker_in recorder.old) }
        ensures published { OnOk result ((change : Change) × Moves self.old value change
            × ArePublished (change ∷ []) recorder.old recorder.new) }
        ensures gauge { gauge_in self.new ≡ gauge_in self.old }
        ensures last { OnOk result (last_of self.new ≡ value) }
        ensures kept { OnErr result (self.new ≡ self.old) }
        ensures fault { IfErr result (λ why. (change : Change) × Moves self.old value change
            × IsPublishFault (change ∷ []) recorder.old why) }
        ensures unchanged { OnErr result (member_of (worker_in recorder.new) ≡ member_of (worker_in recorder.old)) }
    {
        recorder.publish(&[self.change_to(value)])?;
        self.told(value);
        Ok(())
    }

    /// Sets the gauge, which is of a page: one version of its board.
    ///
    /// # Errors
    ///
    /// As [`PageRecorder::publish`] of one change. No number has changed then.
    pub fn set_on_page<const N: usize, const C: usize, const H: usize, const G: usize>(
        &mut self,
        recorder: &mut PageRecorder<N, C, H, G>,
        value: i64,
    ) -> Result<(), PublishFault>
        ensures published { OnOk result ((change : Change) × Moves self.old value change
            × ArePublishedOn (change ∷ []) (recorders_of recorder.old) (recorders_of recorder.new)) }
        ensures gauge { gauge_in self.new ≡ gauge_in self.old }
        ensures last { OnOk result (last_of self.new ≡ value) }
        ensures kept { OnErr result (self.new ≡ self.old) }
        ensures fault { IfErr result (λ why. (change : Change) × Moves self.old value change
            × IsPublishRefused (change ∷ []) (recorders_of recorder.old) (recorders_of recorder.new) why) }
        ensures first { first_of recorder.new ≡ first_of recorder.old }
        ensures feed { SameConsumer (feed_of recorder.old) (feed_of recorder.new) }
    {
        match recorder.publish(&[self.change_to(value)]) {
            Ok(()) => {
                self.told(value);
                Ok(())
            }
            Err(fault) => Err(fault),
        }
    }
}
