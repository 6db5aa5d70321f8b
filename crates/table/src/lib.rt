// The record and the table in lent bytes: how they are laid out, and how they are read. The attribute names what the
// proofs rest on: what stands, and what a record is; few then need a file.
#![tactic(auto, unfolding(crate::specs::Stands::Stands, crate::specs::Record::record_of, crate::specs::Record::record_at, crate::specs::Table::right_size))]

pub mod layout;
mod read;
mod size;

pub use layout::{NO_SLOT, RECORD};
pub use read::{
    away_from, card_of, child_of, children_of, count_of, four_slots, is_child_of, is_free, kind_of,
    parent_of, radius_of, signature_of, slot_of, timestamp_of,
};
pub use size::{records_in, right_size};
