//! A finding.

ghost use Rattle.std.specs.Prelude.{◌≡◌};
ghost use Rattle.mg_findings.specs.Findings.{damage_finding};

use mg_base::{Damaged, Field, PageNo};

/// What is found, in the order in which findings at one place are listed.
#[derive(Clone, Copy, Debug, PartialEq, Eq)]
pub enum Rule {
    /// A page that is marked as used, and that nothing reaches.
    Orphan,
    /// The cell of a version that is in no record.
    Unreached,
    /// A version of a dead transaction in a record.
    Dead,
    /// An index entry that no version of its record matches.
    Without,
    /// A field, or a rule, by which the image is not sound.
    Damage(Field),
}

/// Something that a validation tells of an image.
#[derive(Clone, Copy, Debug, PartialEq, Eq)]
pub struct Finding {
    pub page: PageNo,
    /// The slot of a cell, counted from 0; the place of an index entry; 0 for a page as a whole.
    pub slot: u16,
    pub what: Rule,
    /// What the field of a damage has, 0 for other findings.
    pub found: u64,
    /// What it should have, 0 for other findings.
    pub wanted: u64,
}

impl Finding {
    /// The finding of a damage of a page as a whole.
    pub fn of(damage: Damaged) -> Finding
        ensures { result ≡ damage_finding damage }
    {
        Finding {
            page: damage.page,
            slot: 0,
            what: Rule::Damage(damage.field),
            found: damage.found,
            wanted: damage.wanted,
        }
    }
}
