// The paper's limits; specs/Limits.antt has the same numbers for contracts.
// The most records that a table has.
pub const RECORDS: usize = 1024;

// The most cards that a nearest call lists.
pub const NEAREST: usize = 64;

// The most children that a record has, and so the largest arity.
pub const CHILDREN: u8 = 8;

// The largest timestamp that four bytes hold.
pub const TIMESTAMP: u32 = 4294967295;

// Bytes of a signature.
pub const SIGNATURE: usize = 32;
