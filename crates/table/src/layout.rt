// How a table is laid out: the bytes of a record, and where each field starts in its record. These numbers stand here
// and nowhere else in code. The record in slot s starts at s * RECORD.

// The parent's slot of a root, and a child slot past the count.
pub const NO_SLOT: u16 = 65535;

// Bytes of a record.
pub const RECORD: usize = 64;

// Bytes of the largest table, 1,024 records.
pub const LARGEST: usize = 65536;

// Where each field starts in its record; the card starts it.
pub const TIMESTAMP: usize = 4;

pub const RADIUS: usize = 8;

pub const PARENT: usize = 12;

pub const COUNT: usize = 14;

pub const KIND: usize = 15;

pub const SLOTS: usize = 16;

pub const SIGNATURE: usize = 32;
