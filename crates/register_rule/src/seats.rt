//! Seats: what a thread makes its steps with.
ghost use Rattle.std.specs.Prelude.{◌≡◌, [], ◌∷◌, length};
ghost use Rattle.register_rule.specs.declared.view.Who.TheVariants.{Worker, Reader};
ghost use Rattle.register_rule.specs.Members.{first_of};

use crate::view::SeatView;
use atomic_table::Seat;

/// A seat of some workers and readers. The first one makes its steps.
#[derive(Drop)]
pub struct Bundle {
    pub(crate) seat: Seat<(), SeatView>,
    // It holds none of the table's slots, which a board does not use (`table_steps.rt`).
    ghost free: { seat.me.1 ≡ [] },
}

/// The seat of one worker.
pub struct WorkSeat {
    pub(crate) bundle: Bundle,
    pub(crate) worker: usize,
    pub(crate) number: u64,
    ghost alone: { bundle.seat.me.0.members ≡ first_of bundle.seat.me.0.members ∷ [] },
    ghost is: { (first_of bundle.seat.me.0.members).who ≡ Worker worker },
    ghost counts: { number ≡ length (first_of bundle.seat.me.0.members).work.made },
}

impl Drop for WorkSeat {
    fn drop(self) {
        let WorkSeat {
            bundle: _,
            worker: _,
            number: _,
        } = self;
    }
}

impl WorkSeat {
    ghost use Rattle.register_rule.specs.Seats.{members_of, work_bundle, worker_of, index_of};
    ghost use Rattle.std.specs.Prelude.{◌≡◌, length};
    ghost use Rattle.register_rule.specs.declared.view.Who.TheVariants.{Worker};

    /// The seat as a bundle of this one worker.
    pub fn into_bundle(self) -> Bundle
        ensures same { result ≡ work_bundle self }
        ensures one { members_of result ≡ worker_of self ∷ [] }
    {
        let WorkSeat {
            bundle,
            worker: _,
            number: _,
        } = self;
        bundle
    }

    /// The worker whose seat it is.
    pub fn worker(&self) -> usize
        ensures who { (worker_of self.now).who ≡ Worker result }
        ensures index { result ≡ index_of self.now }
    {
        self.worker
    }

    /// How often the worker has published.
    pub fn number(&self) -> u64
        ensures { result ≡ length (worker_of self.now).work.made }
    {
        self.number
    }
}

/// The seat of one reader.
pub struct ReadSeat {
    pub(crate) bundle: Bundle,
    pub(crate) reader: usize,
    ghost alone: { bundle.seat.me.0.members ≡ first_of bundle.seat.me.0.members ∷ [] },
    ghost is: { (first_of bundle.seat.me.0.members).who ≡ Reader reader },
}

impl Drop for ReadSeat {
    fn drop(self) {
        let ReadSeat {
            bundle: _,
            reader: _,
        } = self;
    }
}

impl ReadSeat {
    ghost use Rattle.register_rule.specs.Seats.{members_of, read_bundle, reader_of};
    ghost use Rattle.std.specs.Prelude.{◌≡◌};
    ghost use Rattle.register_rule.specs.declared.view.Who.TheVariants.{Reader};

    /// The seat as a bundle of this one reader.
    pub fn into_bundle(self) -> Bundle
        ensures same { result ≡ read_bundle self }
        ensures one { members_of result ≡ reader_of self ∷ [] }
    {
        let ReadSeat { bundle, reader: _ } = self;
        bundle
    }

    /// The reader whose seat it is.
    pub fn reader(&self) -> usize
        ensures { (reader_of self.now).who ≡ Reader result }
    {
        self.reader
    }
}

impl Bundle {
    ghost use Rattle.std.specs.Prelude.{◌≡◌, [], ◌∷◌, length};
    ghost use Rattle.register_rule.specs.declared.view.Who.TheVariants.{Worker, Reader};
    ghost use Rattle.register_rule.specs.Members.{first_of};
    ghost use Rattle.register_rule.specs.Seats.{members_of, work_bundle, index_of, read_bundle};

    /// The bundle of one worker, which has published `number` times, as its seat.
    pub fn into_work(self, worker: usize, number: u64) -> WorkSeat
        requires one { members_of self ≡ first_of (members_of self) ∷ [] }
        requires is { (first_of (members_of self)).who ≡ Worker worker }
        requires counts { number ≡ length (first_of (members_of self)).work.made }
        ensures same { work_bundle result ≡ self }
        ensures worker { index_of result ≡ worker }
    {
        WorkSeat {
            bundle: self,
            worker,
            number,
        }
    }

    /// The bundle of one reader as its seat.
    pub fn into_read(self, reader: usize) -> ReadSeat
        requires one { members_of self ≡ first_of (members_of self) ∷ [] }
        requires is { (first_of (members_of self)).who ≡ Reader reader }
        ensures same { read_bundle result ≡ self }
    {
        ReadSeat {
            bundle: self,
            reader,
        }
    }
}
