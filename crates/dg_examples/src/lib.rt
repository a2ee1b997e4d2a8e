//! What the definitions of evaluation make of small documents. Each law has its document's text,
//! and the claim in plain words. Instances, slots and asks are told by numbers: instances in the
//! order of their `open` lines from 0, slots in the order of nodes from 0, asks from 1. The classes
//! of objects count from 6, since Hilt's are the first six.
#![tactic(auto)]

mod laws;

pub use laws::{
    a_child_adds_to_the_set_of_its_parent, a_provider_makes_and_a_lazy_keeps,
    a_scoped_class_is_made_once, an_awaited_producer_is_asked_for,
    an_exposed_entry_is_of_its_own_instance, an_unscoped_class_is_made_for_each_ask,
    only_an_awaited_producer_is_asked_for, the_first_failure_is_given,
};
