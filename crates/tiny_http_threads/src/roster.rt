//! A count of the entries made by any number of threads. Programs may use it; in this project only tests do.
ghost use Rattle.std.specs.Prelude.{◌≡◌, ◌+◌, ◌-◌, ◌^◌, ◌<◌, false, if◌then◌else◌};
ghost use Rattle.tiny_http_threads.specs.Roster.{CountsIn};

use std::sync::ledger::{Book, Ledger, Share};
use std::sync::{Mutex, Wait};

// The number of entries, and the book that adds up what the shares count.
#[derive(Drop)]
struct Entries<L: Ledger> {
    number: u64,
    book: Book<L>,
    ghost counted: { number ≡ book.total },
}

impl<L: Ledger> Entries<L> {
    // Adds one to the number and to the share, and returns true. If the number is 2^64 - 1, changes nothing and returns
    // false.
    fn enter(&mut self, mine: &mut Share<L>) -> bool
        requires { 0 < mine.old.parts }
        ensures number { CountsIn self.old.book.total result self.new.book.total }
        ensures share { mine.new.amount + self.old.book.total ≡ mine.old.amount + self.new.book.total }
        ensures parts { mine.new.parts ≡ mine.old.parts }
        ensures whole { mine.old.parts ≡ L.parts → mine.old.amount ≡ self.old.book.total }
    {
        let Entries { number, book } = self;
        book.audit(mine);
        if *number == u64::MAX {
            return false;
        }
        book.add(mine, 1);
        *number += 1;
        true
    }

    // Returns the number of entries, which is what all shares count together.
    fn count(&self) -> u64
        ensures { result ≡ self.now.book.total }
    {
        self.number
    }

    // Returns the number of entries, given the one share into which all were merged.
    fn total(&mut self, all: &mut Share<L>) -> u64
        requires { all.old.parts ≡ L.parts }
        ensures total { result ≡ all.old.amount }
        ensures amount { all.new.amount ≡ all.old.amount }
        ensures parts { all.new.parts ≡ all.old.parts }
    {
        self.book.audit(all);
        self.count()
    }
}

/// A number of entries that any thread may increase by one, under a lock. Each thread's additions are in its share of a
/// ledger; the number is the sum of the shares.
#[derive(Drop)]
pub struct Roster<L: Ledger> {
    entries: Mutex<Entries<L>>,
}

impl<L: Ledger> Roster<L> {
    /// Creates a count of 0, over a ledger whose shares count nothing yet.
    pub fn new(book: Book<L>) -> Roster<L>
        requires { book.total ≡ 0 }
    {
        Roster {
            entries: Mutex::new(Entries { number: 0, book }),
        }
    }

    /// Adds one to the number and to the caller's share, which must have a part, and returns true. If the number is
    /// 2^64 - 1, changes nothing and returns false.
    pub fn enter<R: Wait>(&self, rt: &R, mine: &mut Share<L>) -> bool
        requires { 0 < mine.old.parts }
        ensures amount { mine.new.amount ≡ (if result then mine.old.amount + 1 else mine.old.amount) }
        ensures parts { mine.new.parts ≡ mine.old.parts }
        // To a caller that holds the whole share, a false result means that the number is 2^64 - 1.
        ensures full { result ≡ false → mine.old.parts ≡ L.parts → mine.old.amount ≡ 2 ^ 64 - 1 }
    {
        self.entries.lock(rt).enter(mine)
    }

    /// Returns the current number. The contract doesn't state that, since the call takes no share.
    pub fn count<R: Wait>(&self, rt: &R) -> u64 {
        self.entries.lock(rt).count()
    }

    /// Returns the number of all entries, given the one share into which all were merged.
    pub fn close(self, all: &mut Share<L>) -> u64
        requires { all.old.parts ≡ L.parts }
        ensures total { result ≡ all.old.amount }
        ensures amount { all.new.amount ≡ all.old.amount }
        ensures parts { all.new.parts ≡ all.old.parts }
    {
        let Roster { entries } = self;
        let mut entries = entries.into_inner();
        entries.total(all)
    }
}
