//! The board: the 64-bit words that `N` workers, 1 to 32, and 1 to 4 readers share, and the rule that holds of them
//! between any two atomic steps of any threads.
//!
//! [`Board::new`] gives a seat for each worker and reader. A thread makes its steps with its seat: [`Board::open`],
//! [`Board::read_word`], [`Board::confirm`], [`Board::ask`] and [`Board::end_ask`] are the loads of a scan,
//! [`Board::fill_word`], [`Board::fill_at`] and [`Board::publish`] the stores of a worker, [`Board::join`] and [`Board::part`]
//! put the members of seats together and apart, and [`Board::tell`] is a load that only tells. No step is handed memory. What a
//! seat knows is a [`SeatView`], which contracts see and no program makes.
//!
//! Beside the words that the rule speaks of a board has its hush word, by which a scan that failed asks workers to rest
//! ([`Board::hush`]): a hint, of which no clause speaks.
//!
//! The algorithm is the unbounded single-writer snapshot of Afek, Attiya, Dolev, Gafni, Merritt and Shavit, "Atomic
//! Snapshots of Shared Memory", J. ACM 40(4), 1993, section 3. Where each word stands is said in `segment_layout`.
#![tactic(auto)]

mod board;
mod board_fault;
mod hush;
mod load;
mod scan_steps;
mod seats;
mod steps;
mod table_steps;
mod view;

pub use board::{Board, Parts};
pub use board_fault::BoardFault;
pub use load::Load;
pub use scan_steps::ScanSeat;
pub use seats::{Bundle, ReadSeat, WorkSeat};
pub use table_steps::load_as;
pub use view::{
    Answer, Asked, Look, Member, PublishEntry, ScanInProgress, ScanLog, SeatView, Version, Who,
    Work,
};
