// How it stands with what is told of a node's failure.
ghost use Rattle.std.specs.Prelude.{◌≡◌};
ghost use Rattle.ring_news.specs.Books.{again, cause_of, is_due};

use disk_model::SystemFault;

/// Whether a node's failure is to be told.
#[derive(Clone, Copy)]
pub enum Failure {
    /// The node has not failed.
    Absent,
    /// It has failed, with what the system answered, where that is known. It is to be told.
    Due(Option<SystemFault>),
    /// It was told.
    Told,
}

impl Failure {
    /// Whether it is to be told.
    pub fn is_due(&self) -> bool
        ensures { result ≡ is_due self.now }
    {
        matches!(self, Failure::Due(_))
    }

    // What the system answered, where that is known and not told.
    pub(crate) fn cause(&self) -> Option<SystemFault>
        ensures { result ≡ cause_of self.now }
    {
        match self {
            Failure::Due(cause) => *cause,
            Failure::Absent | Failure::Told => None,
        }
    }

    // The node has failed so. A cause that is known already stays, and so does what was told.
    pub(crate) fn again(self, cause: Option<SystemFault>) -> Failure
        ensures { result ≡ again self cause }
    {
        match self {
            Failure::Absent | Failure::Due(None) => Failure::Due(cause),
            Failure::Due(Some(known)) => Failure::Due(Some(known)),
            Failure::Told => Failure::Told,
        }
    }
}
