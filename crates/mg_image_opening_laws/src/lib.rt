//! Each sound image gives a whole opening: what a history may begin with.
//!
//! Owns: the law (`OpenedBegin`, `SoundHaveOpenings`). The opening is listed by going over the slots of
//! the data pages: the rows that records show, and the changes of their versions in limbo, each key of a
//! table once. Whichever of the transactions in limbo come to be committed, the catalog of the list is
//! that of the image, but for the numbers of pages.
//!
//! All stands in `specs/`: lists of which each key stands once (`Gathered`), the chosen changes
//! (`Chosen`), what told rows say (`Told`), the items (`Items`), the catalogs of a choice (`Catalogs`),
//! rows that fit their columns (`Fits`), and the opening (`Begun`); what counts is in `Laws`. There is no
//! program here: the function does nothing, and its contract is the law.
//!
//! Invariant: none, it keeps no state.
//! Below: `mg_image_overlay_laws`, what a sound image holds. Above: the engine, which opens images.
#![tactic(auto)]

mod laws;

pub use laws::sound_images_have_openings;
