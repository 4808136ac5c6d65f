//! The count of the edits and of what became of them.
ghost use Rattle.std.specs.Prelude.{◌≡◌, ◌+◌, ◌^◌, ◌<◌};

use std::fmt;

/// Every edit was either sent or refused. A count stops at its largest number.
#[derive(Clone, Copy, Default)]
pub(crate) struct Tally {
    sent: u64,
    refused: u64,
}

// A method for each count: a parameter that chose between the two would be no plainer.
impl Tally {
    /// One edit more, which was sent.
    pub(crate) fn add_sent(&mut self)
        ensures { (self.old.sent + 1 < 2 ^ 64 → self.new.sent ≡ self.old.sent + 1) × (self.new.refused ≡ self.old.refused) }
    {
        self.sent = self.sent.saturating_add(1);
    }

    /// One edit more, which was refused.
    pub(crate) fn add_refused(&mut self)
        ensures { (self.old.refused + 1 < 2 ^ 64 → self.new.refused ≡ self.old.refused + 1) × (self.new.sent ≡ self.old.sent) }
    {
        self.refused = self.refused.saturating_add(1);
    }
}

impl fmt::Display for Tally {
    fn fmt<W: fmt::Write>(&self, f: &mut fmt::Formatter<W>) -> fmt::Result {
        let Tally { sent, refused } = *self;
        let edits = sent.saturating_add(refused);
        write!(f, "{edits} edits, {sent} sent, {refused} refused")
    }
}
