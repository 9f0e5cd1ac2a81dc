//! The laws.

ghost use Rattle.mg_no_damage_laws.specs.CoreReads.{BeforesAreRead, KeysAreNamed, KeysAreNoted, RecordsArePassed, RowsAreFound, TablesArePassed};

use crate::{keys_are_read, lawful_tables_are_read};
use mg_base::Disk;

/// A write has its key.
pub fn writes_have_keys<D: Disk>()
    ensures { KeysAreNamed D }
{}

/// What a write reads before it changes a row is read.
pub fn reads_meet_no_damage<D: Disk>()
    ensures tables { TablesArePassed D.meaning }
    ensures rows { RowsAreFound D.meaning }
    ensures records { RecordsArePassed D.meaning }
    ensures befores { BeforesAreRead D.meaning }
    ensures noted { KeysAreNoted D.meaning }
{
    keys_are_read::<D>();
    lawful_tables_are_read::<D>();
}
