use crate::{lines_and_rest, one_reading};

#[test]
fn the_laws_of_reading_are_calls(_rt: HostRuntime) {
    lines_and_rest();
    one_reading();
}
