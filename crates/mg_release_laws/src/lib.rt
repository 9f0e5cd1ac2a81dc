//! What holds of an image from which orphan pages were released, as laws of definitions.
//!
//! Owns: that a sound image stays sound, by the same layout and the same records, and that opening it
//! gives what it gave, whichever pages that are marked as used and that nothing reaches were
//! released; and so of each image that a crash leaves between the writes of page inventory pages,
//! whichever of them have reached the disk.
//!
//! Invariant: none, it keeps no state.
//! Below: `mg_release` and `mg_orphans`, for what is released; `mg_image`, for what a sound image is;
//! `mg_image_overlay_laws`, for the kinds of linked pages. Above: nobody yet; the command that writes the
//! pages.
//! Not here: which pages are reached, and the deed.
#![tactic(auto)]

mod laws;

pub use laws::{
    opened_images_are_left, opened_images_stay, sound_images_are_left, sound_images_stay,
};
