use dg_value::Kept;

/// What a slot comes to.
#[derive(Drop)]
pub enum Outcome {
    /// A value or a failure.
    Kept(Kept),
    /// What the cell of this producer comes to, which wasn't asked for: the slot's decision tree
    /// ends in an `await` of a production.
    Forward { inst: u32, slot: u32 },
}
