//! What is read of a primary slot.

use mg_base::RecId;
use mg_image::Entry;

/// A slot, and the versions of its record, the newest first; none where it is no primary slot.
#[derive(Drop)]
pub struct Found {
    pub at: RecId,
    pub entries: Vec<Entry>,
}
