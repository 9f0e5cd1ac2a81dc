//! A new database is sound. Each function does nothing: its contract is the law.

ghost use Rattle.mg_new_database_laws.specs.Soundness.{MemDisksAreWhole, NewAreOpened, NewAreSound};

/// A new database is sound, and opening it gives the rows of its catalog, and a table KV without rows.
pub fn new_databases_are_sound()
    ensures sound { NewAreSound }
    ensures opened { NewAreOpened }
{}

/// Each page of a disk in memory has the page size: what is asked of a disk for a new database on it to be sound.
pub fn disks_in_memory_are_whole()
    ensures { MemDisksAreWhole }
{}
