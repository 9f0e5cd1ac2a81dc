//! What is read of a new database. Each function does nothing: its contract is the law.

ghost use Rattle.mg_new_database_laws.specs.Readable.{NewAreReadable, NewAreUndrawn, NewAreUsed, NewHaveInventory, NewHavePointers};

/// A new database is read without finding damage, whatever its page size.
pub fn new_databases_are_readable()
    ensures { NewAreReadable }
{}

/// The seven pages of a new database are marked as used, and no transaction but the system's has become anything.
pub fn new_databases_have_no_transactions()
    ensures used { NewAreUsed }
    ensures inventory { NewHaveInventory }
    ensures undrawn { NewAreUndrawn }
{}

/// The catalog and KV of a new database have one pointer page and one data page each.
pub fn new_databases_have_two_tables()
    ensures { NewHavePointers }
{}
