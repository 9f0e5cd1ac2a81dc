//! Histories in which rows of the catalog are only made: what is committed of it stays as it is.
//!
//! Owns: the condition on a history (`CatalogGrows`), which holds where CREATE TABLE alone writes the catalog; that
//! a committed row of the catalog stays (`CommittedRowsStay`), so that the base of a transaction has no row there
//! which the database has not, however old it is (`BasesAreWithin`); that what a transaction which has not ended has
//! changed there are rows of keys at which the database has none (`OwnRowsAreNew`), and none that another active
//! one sees (`SeenIsNotMade`); that none makes a row there twice (`RowsAreMadeOnce`); and that none sets a mark or a savepoint between the
//! rows of a table (`RowsAreTogether`).
//!
//! All stands in `specs/`. There is no program here: the function does nothing, and its contract is the law.
//!
//! Invariant: none, it keeps no state.
//! Below: `mg_model`. Above: which tables an engine's transactions find.
//! Not here: pages.
#![tactic(auto)]

mod laws;

pub use laws::catalogs_grow;
