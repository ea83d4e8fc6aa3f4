//! The table of open connections.
ghost use Rattle.std.specs.Prelude.{◌≡◌, ◌≤◌, ◌↔◌, length, position, IfNone, IsTrue};
ghost use Rattle.tiny_http_limits.specs.ConnectionTable.{nobody, count_of, is_address_full, Enters, has_number};
ghost use Rattle.tiny_http_limits.specs.ConnectionTable.{item_of};
ghost use Rattle.tiny_http_limits.specs.ConnectionTable.{without, IsKept};

use crate::headcount::Headcount;
use std::alloc::Global;
use std::marker::Model;
use std::net::IpAddr;

/// An open connection in the table.
#[derive(Debug, Drop)]
pub struct Entry<T> {
    number: u64,
    address: Option<IpAddr>,
    item: T,
}

impl<T> Entry<T> {
    /// Returns the item stored with the connection.
    pub fn item(&self) -> &T
        ensures { result.now ≡ self.now.item }
    {
        &self.item
    }
}

/// The reason why a connection isn't admitted.
#[derive(Clone, Copy, Debug, PartialEq, Eq)]
pub enum Refusal {
    /// The limit on open connections is reached, or no number is left.
    Full,
    /// The limit on open connections from its address is reached.
    AddressFull,
    /// Memory couldn't be allocated.
    Memory,
}

/// The table of open connections, in order of arrival, each with an item.
///
/// It limits the number of connections in total and per IP address. A contract sees the two limits, the next number and
/// the entries.
#[derive(Drop)]
pub struct ConnectionTable<T> {
    most: usize,
    most_of_address: usize,
    // The number of the next connection.
    next: u64,
    // The number of entries.
    present: Headcount,
    entries: Vec<Entry<T>>,
}

impl<T> Model for ConnectionTable<T> {
    ghost use Rattle.std.specs.Prelude.{◌≡◌, length};
    ghost use Rattle.tiny_http_limits.specs.ConnectionTable.{Connected, IsKept};

    ghost Value = { Connected T };

    ghost view = { λ c. record
        { most = c.most; most_of_address = c.most_of_address; next = c.next; entries = c.entries.items } };

    ghost invariant = { λ c. IsKept
        (record { most = c.most; most_of_address = c.most_of_address; next = c.next; entries = c.entries.items })
        × (c.present ≡ length c.entries.items) };
}

impl<T: Drop> ConnectionTable<T> {
    /// Makes an empty table with these limits: on connections in total, and on connections from one address.
    pub fn new(alloc: Global, most: usize, most_of_address: usize) -> ConnectionTable<T>
        ensures { result ≡ nobody most most_of_address }
    {
        ConnectionTable {
            most,
            most_of_address,
            next: 0,
            present: Headcount::new(),
            entries: Vec::new(alloc),
        }
    }

    /// Returns the number of open connections.
    pub fn count(&self) -> usize
        ensures { result ≡ length self.now.entries }
    {
        self.present.count()
    }

    /// Returns whether the limit on open connections is reached.
    pub fn is_full(&self) -> bool
        ensures { IsTrue result ↔ (self.now.most ≤ length self.now.entries) }
    {
        self.count() >= self.most
    }

    /// Adds a connection with its address, if it has one, and an item. Returns the connection's number, which no
    /// earlier connection had.
    ///
    /// Fails with `Full` if the limit is reached or no number is left; otherwise with `AddressFull` if the limit for
    /// the address is reached; otherwise with `Memory` if memory can't be allocated. A call that fails drops the item
    /// and changes nothing else.
    pub fn enter(&mut self, address: Option<IpAddr>, item: T) -> Result<u64, Refusal>
        ensures { Enters self.old address item result self.new }
    {
        if self.is_full() || self.next == u64::MAX {
            return Err(Refusal::Full);
        }
        if self.is_address_full(address) {
            return Err(Refusal::AddressFull);
        }
        let number = self.next;
        let entry = Entry {
            number,
            address,
            item,
        };
        match self.entries.push(entry) {
            Ok(()) => {
                self.next += 1;
                let _ = self.present.enter();
                Ok(number)
            }
            Err(_) => Err(Refusal::Memory),
        }
    }

    // Returns whether the limit on connections from this address is reached. Without an address there is no such limit.
    fn is_address_full(&self, address: Option<IpAddr>) -> bool
        ensures { result ≡ is_address_full self.now address }
    {
        match address {
            Some(address) => self.count_of(address) >= self.most_of_address,
            None => false,
        }
    }

    // Returns the number of connections from this address.
    fn count_of(&self, address: IpAddr) -> usize
        ensures { result ≡ count_of address self.now.entries }
    {
        self.entries
            .iter()
            .filter(|entry| entry.address == Some(address))
            .count()
    }

    /// Removes the connection with this number and returns its item. Returns `None` and changes nothing if there is no
    /// such connection.
    pub fn leave(&mut self, number: u64) -> Option<T>
        ensures item { result ≡ item_of number self.old.entries }
        ensures gone { self.new ≡ record self.old { entries = without number self.old.entries } }
        ensures none { IfNone result (self.new ≡ self.old) }
    {
        let at = self.position_of(number)?;
        let _ = self.present.leave();
        Some(self.entries.remove(at).item)
    }

    // Returns the position of the connection with this number, or `None` if there is no such connection.
    fn position_of(&self, number: u64) -> Option<usize>
        ensures { result ≡ position (has_number number) self.now.entries }
    {
        self.entries.iter().position(|entry| entry.number == number)
    }

    /// Returns the open connections, in order of arrival.
    pub fn entries(&self) -> &[Entry<T>]
        ensures entries { result.now ≡ self.now.entries }
        ensures kept { IsKept self.now }
    {
        self.entries.as_slice()
    }
}
