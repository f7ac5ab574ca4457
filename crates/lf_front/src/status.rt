//! What a run answers.
ghost use Rattle.std.specs.Prelude.{◌≡◌};
ghost use Rattle.lf_front.specs.Meaning.{status_code};

/// How a run ended.
#[derive(Clone, Copy, Debug, PartialEq, Eq)]
pub enum Status {
    /// The report has no error.
    Clean,
    /// The words aren't those of a run.
    BadWords,
    /// The source's faults rose.
    ReadFault,
    /// The sink's faults rose.
    WriteFault,
    /// Memory ran out.
    NoMemory,
    /// The text isn't one that is built yet.
    NotBuilt,
}

impl Status {
    /// The status of the process.
    pub fn code(self) -> u8
        ensures { result ≡ status_code self }
    {
        match self {
            Status::Clean => 0,
            Status::BadWords => 2,
            Status::ReadFault => 3,
            Status::WriteFault => 4,
            Status::NoMemory => 5,
            Status::NotBuilt => 9,
        }
    }
}
