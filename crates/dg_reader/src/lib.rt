//! Reads a document from its bytes.
#![tactic(auto)]

mod bodies;
mod constants;
mod counts;
mod document;
mod draft;
mod expressions;
mod fault;
mod lexemes;
mod lines;
mod meaning;
mod members;
mod nesting;
mod outside;
mod parts;
mod session;
mod split;
mod types;

pub use document::read_doc;
pub use fault::ReadDocFault;
