//! The plain reading of an image: a slow program whose contract is the definition. It answers what
//! an image holds of the tables it is told of, and refuses an image only where a rule is broken.
//!
//! Owns: the image as a program reads it (`Image`), the tests of the rules that speak of an image
//! as a whole, and the reading of one table: its pages, its records, and the rows they show.
//!
//! Invariant: none, it keeps no state.
//! Below: `mg_image`, for what an image means; the crates of each kind of page, of cells and of
//! rows, for the tests of one page and the decoding of one cell or row. Above: `mg_check`.
//! Not here: the rows of the catalog, and index trees.
#![tactic(auto)]

mod chain;
mod data;
mod erased;
mod found;
mod held;
mod image;
mod inventory;
mod laws;
mod pairs;
mod parts;
mod point;
mod reading;
mod record;
mod rows;
mod rules;
mod table_reading;
mod versions;

pub use chain::{TablePages, table_pages};
pub use data::check_data_pages;
pub use found::Found;
pub use held::{TableRows, check_image, holds, table_rows};
pub use image::Image;
pub use laws::sound_images_are_read;
pub use parts::{are_backs_committed, are_drawn, have_own_keys, read_versions};
pub use point::{ReadFault, Rule};
pub use reading::shown;
pub use rows::{RowCoding, row_of};
pub use table_reading::{TableReading, read_table, table_records};
