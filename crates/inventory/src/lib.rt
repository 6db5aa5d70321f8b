// What is stored: all cards in slot order, and what one was stored with. Both calls only read the table.
#![tactic(auto)]

mod all;
mod one;

pub use all::cards;
pub use one::card;
