//! Two rungs of a validation, and a part of its leftovers: what has become of those who have written the versions of a
//! record.
//!
//! Owns: what is found of the versions of one record: of one whose writer was not drawn, is dead and no longer interesting,
//! or is in limbo and older than the oldest active transaction (`note_drawn`); of a back version whose writer is not
//! committed (`note_backs`); and the versions of dead transactions, which are leftovers (`note_dead`); and that nothing is found
//! exactly where the versions are as a sound image asks it.
//!
//! Invariant: none, it keeps no state. It reads pages that the caller lends, and takes memory for findings alone.
//! Below: `mg_limbo_list`, for what has become of a transaction; `mg_tip`, for its bits; `mg_image`, for versions;
//! `mg_findings`, for findings. Above: nobody yet; a validation that has walked over the records.
//! Not here: which versions a record has, and their keys.
#![tactic(auto)]

mod laws;
mod states;

pub use laws::lawful_states_pass;
pub use states::{Bounds, note_backs, note_dead, note_drawn};
