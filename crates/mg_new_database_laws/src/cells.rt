//! What a new database holds. Each function does nothing: its contract is the law.

ghost use Rattle.mg_new_database_laws.specs.Data.{NewAreEmpty, NewHaveCatalog, NewHaveTables};

/// The data pages of a new database are those of the catalog and of KV: each cell of the catalog's is spelled as one,
/// and KV's has no cell.
pub fn new_databases_have_data_pages()
    ensures catalog { NewHaveCatalog }
    ensures empty { NewAreEmpty }
{}

/// The catalog and KV of a new database stand on one pointer page and one data page each.
pub fn new_databases_have_table_pages()
    ensures { NewHaveTables }
{}
