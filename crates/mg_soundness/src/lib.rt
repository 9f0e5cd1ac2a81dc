//! The test of soundness: a slow program that says of an image whether it is sound, and of one that
//! is not, which rule is the first that it breaks.
//!
//! Owns: the rules of a sound image in the order in which they are tested (`specs/Ladder.antt`), the
//! reading of all tables together, the test as a whole (`check_soundness`), and the test of an image
//! on which a database may be made (`is_unmade`), with the pages that a new database has.
//!
//! A sound image has a layout and a reading. A rule is met where there are a layout and a reading
//! that meet it with all rules before it, so "the first rule that is broken" speaks of the image
//! alone. That the program can refuse it rests on there being one layout and one reading at most.
//!
//! Invariant: none, it keeps no state.
//! Below: `mg_layout`, for where the tables stand; `mg_reading`, for the records of one table;
//! `mg_trees`, for index trees. Above: the program's checks of a database file.
//! Not here: the place of a fault within an image, and repair; and the making of a database, whose
//! pages are made here only to be compared.
#![tactic(auto)]

mod check;
mod indexed;
mod laws;
mod new_catalog;
mod new_pages;
mod owners;
mod records;

pub use check::check_soundness;
pub use laws::the_last_rule_is_soundness;
pub use new_pages::is_unmade;
pub use records::TableRecords;
