// The arrays of a scan, and its steps over them.
ghost use Rattle.std.specs.Prelude.{◌≡◌, ◌+◌, ◌-◌, ◌<◌, Option, Some, None, true, false, option_map};

use crate::next::Next;
use ledger_core::MAX_WORKERS;

/// A scan of `n` workers: what its try in progress has read, and what comes next.
#[derive(Clone, Copy)]
pub struct Scan {
    /// How many workers there are.
    pub n: usize,
    /// How many tries there were, the one in progress too.
    pub tries: usize,
    /// What comes next.
    pub next: Next,
    /// The numbers of the first collect.
    pub opened: [u64; MAX_WORKERS],
    /// Which workers the first collect read whole.
    pub whole: [bool; MAX_WORKERS],
    /// The numbers of the second collect.
    pub found: [u64; MAX_WORKERS],
    /// The numbers of the first collect of the first try.
    pub floor: [u64; MAX_WORKERS],
    /// The numbers of the second collect of the first try.
    pub base: [u64; MAX_WORKERS],
}

impl Scan {
    ghost use Rattle.snapshot_core.specs.Sized.{IsSized};
    ghost use Rattle.snapshot_core.specs.Scan.{failed_at, least_failed_of, is_to_ask, next_asked_of, lends_to, failed_of};
    ghost use Rattle.snapshot_core.specs.Scan.{asked_from, collected, first_by, second_by, asked_by, new_scan};

    /// A scan of `n` workers that was told nothing.
    pub fn new(n: usize) -> Scan
        ensures { result ≡ new_scan n }
    {
        Scan {
            n,
            tries: 1,
            next: Next::First(0),
            opened: [0; MAX_WORKERS],
            whole: [false; MAX_WORKERS],
            found: [0; MAX_WORKERS],
            floor: [0; MAX_WORKERS],
            base: [0; MAX_WORKERS],
        }
    }

    /// Takes the next read of the first collect: its number, and whether it was read whole.
    pub fn first(&mut self, number: u64, whole: bool)
        requires { IsSized self.old }
        ensures { self.new ≡ first_by number whole self.old self.old.next }
    {
        if let Next::First(place) = self.next {
            self.opened[place] = number;
            self.whole[place] = whole;
            self.next = if place + 1 < self.n {
                Next::First(place + 1)
            } else {
                Next::Second(0)
            };
        }
    }

    /// Takes the next read of the second collect.
    pub fn second(&mut self, number: u64)
        requires { IsSized self.old }
        ensures { self.new ≡ second_by number self.old self.old.next }
    {
        if let Next::Second(place) = self.next {
            self.found[place] = number;
            if place + 1 < self.n {
                self.next = Next::Second(place + 1);
            } else {
                self.end_collects();
            }
        }
    }

    /// Takes what the asked worker lends.
    pub fn asked(&mut self, vector: Option<&[u64]>)
        requires { IsSized self.old }
        ensures { self.new ≡ asked_by (option_map (λ v. v.now) vector.entry) self.old self.old.next }
    {
        if let Next::Ask(place) = self.next {
            let lends = match vector {
                Some(v) => self.is_lent_by(v),
                None => false,
            };
            if lends {
                self.next = Next::Lent(place);
            } else {
                self.ask_from(place + 1);
            }
        }
    }

    // Both collects of this try are over.
    fn end_collects(&mut self)
        requires { IsSized self.old }
        ensures { self.new ≡ collected self.old }
    {
        if self.tries == 1 {
            self.floor = self.opened;
            self.base = self.found;
        }
        let least = self.least_failed();
        if self.has_failed(least) {
            self.ask_from(0);
        } else {
            self.next = Next::Direct;
        }
    }

    // Asks the next worker of those from `from` on, or fails.
    fn ask_from(&mut self, from: usize)
        requires { IsSized self.old }
        ensures { self.new ≡ asked_from from self.old }
    {
        match self.next_asked(from) {
            Some(place) => self.next = Next::Ask(place),
            None => self.fail(),
        }
    }

    // Begins the next try, or gives up.
    fn fail(&mut self)
        requires { IsSized self.old }
        ensures { self.new ≡ failed_of self.old }
    {
        if self.tries < self.n + 2 {
            self.tries += 1;
            self.next = Next::First(0);
        } else {
            let worker = self.least_failed();
            self.next = Next::GaveUp {
                worker,
                first: self.opened[worker],
                last: self.found[worker],
            };
        }
    }

    // Whether this worker was not read whole, or its two numbers differ.
    fn has_failed(&self, k: usize) -> bool
        requires { k < 32 }
        ensures { result ≡ failed_at self.now.opened self.now.whole self.now.found k }
    {
        !self.whole[k] || self.opened[k] != self.found[k]
    }

    // Whether this worker is to be asked: its number is 2 or more above the base.
    fn is_twice_above(&self, k: usize) -> bool
        requires { k < 32 }
        ensures { result ≡ is_to_ask self.now.base self.now.found k }
    {
        let number = self.found[k];
        number >= 2 && self.base[k] <= number - 2
    }

    // The least worker that failed; the last one, where no other did.
    #[tactic(auto, using(crate::proofs::Loops::failed_next, crate::proofs::Loops::failed_here))]
    fn least_failed(&self) -> usize
        requires { IsSized self.now }
        ensures least { result ≡ least_failed_of self.now.opened self.now.whole self.now.found 0 (self.now.n - 1) }
        ensures within { result < self.now.n }
    {
        for k in 0..self.n - 1 {
            if self.has_failed(k) {
                return k;
            }
        }
        self.n - 1
    }

    // The least worker from `from` on that is to be asked.
    #[tactic(auto, using(crate::proofs::Loops::asked_next, crate::proofs::Loops::asked_here))]
    fn next_asked(&self, from: usize) -> Option<usize>
        requires { IsSized self.now }
        ensures { result ≡ next_asked_of self.now.base self.now.found from (self.now.n - from) }
    {
        for k in from..self.n {
            if self.is_twice_above(k) {
                return Some(k);
            }
        }
        None
    }

    // Whether the vector is below the floor nowhere.
    #[tactic(auto, using(crate::proofs::Loops::above_next, crate::proofs::Loops::above_here))]
    fn is_lent_by(&self, vector: &[u64]) -> bool
        requires { IsSized self.now }
        ensures { result ≡ lends_to self.now vector.now }
    {
        if vector.len() < self.n {
            return false;
        }
        for k in 0..self.n {
            if vector[k] < self.floor[k] {
                return false;
            }
        }
        true
    }
}
