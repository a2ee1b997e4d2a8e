//! Deques of asks for a fixed number of workers. Each worker has a hand: it pushes asks to a deque
//! of its own and pops them there, and steals from the deques of the others. Each ask that was
//! pushed is taken once, or left.
#![tactic(auto)]

mod hand;
mod laws;
mod making;
mod memory;
mod own;
mod reach;
mod stolen;
mod tally;

pub use hand::Hand;
pub use laws::each_ask_once;
pub use making::hands;
pub use memory::NoMemory;
pub use stolen::Stolen;

#[cfg(test)]
mod tests;
