//! Limits: how much of each thing there may be.

/// The most replicas that a run has.
pub const MOST_REPLICAS: u8 = 9;

/// The most clients that a run has.
pub const MOST_CLIENTS: u32 = 64;

/// The most parts that a stamp has: one for each replica, and one for the order.
pub const MOST_PARTS: usize = MOST_REPLICAS as usize + 1;

/// How many items a log may hold before a new one is refused.
pub const LOG_ROOM: usize = 512;

/// How many queries a replica may hold before a new one is refused.
pub const HELD_ROOM: usize = 1_024;

/// How many entries an order log may hold before a new one is refused.
pub const ORDER_ROOM: u32 = 64;

/// The most bytes that a script has.
pub const MOST_SCRIPT_BYTES: usize = 8_388_608;

/// The last number that a replica gives an update, and the last that a client gives a call.
pub const LAST_NUMBER: u64 = 1 << 62;
