//! Names, texts, types, keys and requests.
#![tactic(auto)]

mod copy;
mod equality;
mod key;
mod laws;
mod memory;
mod name;
mod print;
mod request;
mod shape;
mod text;

pub use key::{Base, Core, Inner, Key, MapKeyVal, MapKind, Mode, Request};
pub use laws::{requests_lose_nothing, tests_tell_equal};
pub use memory::NoMemory;
pub use name::Name;
pub use print::{
    key_text, map_key_text, push_key_text, push_map_key_text, push_quoted, push_shape_text,
    push_use_text, shape_text,
};
pub use request::request_of;
pub use shape::{Qualifier, Shape, TypeUse};
pub use text::Text;

#[cfg(test)]
mod tests;
