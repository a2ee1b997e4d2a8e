ghost use Rattle.std.specs.Prelude.{◌≡◌};
ghost use Rattle.dg_top.specs.Status.{code_of};

/// How a run ends.
#[derive(Clone, Copy, Debug, PartialEq, Eq)]
pub enum Status {
    /// Each line is good and no rule is broken. The whole report is written.
    Ran,
    /// Each line is good, and a rule is broken. All diagnostics are written.
    Refused,
    /// The program has no such words. It reads and writes nothing.
    BadWords,
    /// A line is bad. `bad line` and the number of the first such line are written.
    BadLine,
    /// The input couldn't be read to its end, and nothing is written.
    ReadFault,
    /// The output couldn't be written as a whole. What came before the failure is.
    WriteFault,
    /// Memory was refused. The output isn't written as a whole.
    NoMemory,
    /// There are more bytes than a document may have, 4,194,304. `too long` is written.
    TooLong,
}

impl Status {
    /// The exit status of a program that ends so.
    pub fn code(&self) -> u8
        ensures exact { result ≡ code_of self.now }
    {
        match self {
            Status::Ran => 0,
            Status::Refused => 1,
            Status::BadWords => 2,
            Status::BadLine => 3,
            Status::ReadFault => 4,
            Status::WriteFault => 5,
            Status::NoMemory => 6,
            Status::TooLong => 7,
        }
    }
}
