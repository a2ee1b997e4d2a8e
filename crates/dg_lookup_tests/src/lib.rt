//! What component classes find for keys, in small documents that are read. It has tests alone.
#![tactic(auto)]

#[cfg(test)]
mod tests;
