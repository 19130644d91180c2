//! The names of clients, replicas, calls and places, and the numbers that a run is set up with.
ghost use Rattle.std.specs.Prelude.{◌≡◌, ◌↔◌, IsTrue};
ghost use Rattle.lr_base.specs.Ascending.{cid_before, is_before as spot_before};
ghost use Rattle.lr_base.specs.Config.{IsValid};

use crate::limits::{MOST_CLIENTS, MOST_REPLICAS};

/// How many replicas and clients there are, and how long a message may be under way.
#[derive(Clone, Copy, PartialEq, Eq)]
pub struct Config {
    /// From 1 to [`MOST_REPLICAS`].
    pub replicas: u8,
    /// From 1 to [`MOST_CLIENTS`].
    pub clients: u32,
    /// In the unit of the clocks' readings.
    pub delta: u64,
}

impl Config {
    /// Whether the counts are in their ranges.
    pub fn is_valid(&self) -> bool
        ensures { IsTrue result ↔ IsValid self.now }
    {
        let Config {
            replicas,
            clients,
            delta: _delta,
        } = *self;
        1 <= replicas && replicas <= MOST_REPLICAS && 1 <= clients && clients <= MOST_CLIENTS
    }
}

/// A call, by its client and that client's count of calls, from 1.
#[derive(Clone, Copy, PartialEq, Eq, PartialOrd, Ord, Hash)]
pub struct Cid {
    pub client: u32,
    pub seq: u64,
}

impl Cid {
    /// Whether this call comes before another, by client and then by count.
    pub fn is_before(self, other: Cid) -> bool
        ensures { result ≡ cid_before self other }
    {
        self.client < other.client || self.client == other.client && self.seq < other.seq
    }
}

/// Where an update was accepted: a replica's place, and that place's count, from 1.
#[derive(Clone, Copy, PartialEq, Eq, PartialOrd, Ord)]
pub struct Spot {
    pub place: u8,
    pub number: u64,
}

impl Spot {
    /// Whether this spot comes before another, by place and then by number.
    pub fn is_before(self, other: Spot) -> bool
        ensures { result ≡ spot_before self other }
    {
        self.place < other.place || self.place == other.place && self.number < other.number
    }
}

/// Who sends or receives a message.
#[derive(Clone, Copy, PartialEq, Eq)]
pub enum Actor {
    Client(u32),
    Replica(u8),
}
