//! What a keeper answers.
use definitions::link_number::LinkNumber;

/// How a row stands with a keeper.
#[derive(Clone, Copy, PartialEq, Eq, Debug)]
pub enum Standing {
    /// It is held, and not yet settled.
    Pending,
    /// It is not held, and could be.
    Place,
    /// It is not held, and there is no place for it.
    Neither,
}

impl Standing {
    ghost use Rattle.definitions.specs.LinkNumbers.{number_of};
    ghost use Rattle.rows.specs.Meaning.{Admitted};

    /// Lets a row of the link in where it has a place, or says why it is refused.
    pub fn admit(self, link: LinkNumber) -> Result<(), KeeperError>
        ensures { Admitted self (number_of link) result }
    {
        match self {
            Standing::Pending => Err(KeeperError::RowOpen(link)),
            Standing::Place => Ok(()),
            Standing::Neither => Err(KeeperError::NoPlace(link)),
        }
    }
}

/// Why a keeper refuses a row, with the row's link.
#[derive(Clone, Copy, PartialEq, Eq, Debug)]
pub enum KeeperError {
    /// The row is pending already.
    RowOpen(LinkNumber),
    /// There is no place for the row.
    NoPlace(LinkNumber),
}
