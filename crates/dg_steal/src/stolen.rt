/// What a steal answers.
#[derive(Clone, Copy, Debug, PartialEq, Eq)]
pub enum Stolen {
    /// The ask that was the first of that deque. It is the caller's now.
    Ask(u32),
    /// There was no ask to take.
    Empty,
    /// Another worker may have been faster. It is worth another try.
    Again,
}
