//! The coding of rows: the bytes of a row, packed.
//!
//! Owns: how a row is stored in a record version. Its bytes are a bit for each column, 1 where the
//! value is NULL, and then the values (`mg_value` has the table); `mg_rle` packs them.
//!
//! Invariant: what is decoded is a row of the shape and the format, and packed it is the text that
//! was decoded. Every other text is refused at the place where no row goes on as it does.
//! Below: `mg_value` for rows and shapes, `mg_rle` for packing. Above: what reads and writes
//! records.
//! Not here: where a packed row stands on a page.
#![tactic(auto)]

mod decoding;
mod encoding;
mod fault;
mod laws;
mod row;

pub use encoding::encode_row;
pub use fault::RowFault;
pub use laws::one_row;
pub use row::decode_row;
