//! How many questions of each kind were compared, and how many differed.

use std::{fmt, io};

/// The kinds of questions, by what the table answers.
#[derive(Clone, Copy)]
pub(crate) enum Kind {
    NotForwarded,
    Found,
    Refused,
    WholeRow,
    PartOfRow,
    ShortRow,
}

impl Kind {
    /// Every kind, in the order in which it counts.
    const ALL: [Kind; 6] = [
        Kind::NotForwarded,
        Kind::Found,
        Kind::Refused,
        Kind::WholeRow,
        Kind::PartOfRow,
        Kind::ShortRow,
    ];
}

impl fmt::Display for Kind {
    fn fmt<W: fmt::Write>(&self, f: &mut fmt::Formatter<W>) -> fmt::Result {
        f.write_str(match *self {
            Kind::NotForwarded => "forward, not forwarded",
            Kind::Found => "forward, found",
            Kind::Refused => "forward, refused",
            Kind::WholeRow => "row, every hop written",
            Kind::PartOfRow => "row, up to a refused destination",
            Kind::ShortRow => "row, hop row too short",
        })
    }
}

/// Counts by kind of question, in the order of `Kind::ALL`.
// The other crosscheck counts other kinds: a crate for the two lines that are alike would be no plainer.
#[derive(Drop)]
pub(crate) struct Tally {
    questions: [u32; 6],
    differences: u32,
}

impl Tally {
    pub(crate) fn new() -> Tally {
        Tally {
            questions: [0; 6],
            differences: 0,
        }
    }

    /// One more question of this kind, and whether both answers agree.
    pub(crate) fn note(&mut self, kind: Kind, agree: bool) {
        if let Some(n) = self.questions.get_mut(kind as usize) {
            *n = n.saturating_add(1);
        }
        if !agree {
            self.differ();
        }
    }

    pub(crate) fn differ(&mut self) {
        self.differences = self.differences.saturating_add(1);
    }

    pub(crate) fn print(&self, rt: &impl Print) -> io::Result<()> {
        for (kind, n) in Kind::ALL.iter().zip(&self.questions) {
            println!(rt; "{kind}: {n}")?;
        }
        let differences = self.differences;
        println!(rt; "differences: {differences}")
    }
}
