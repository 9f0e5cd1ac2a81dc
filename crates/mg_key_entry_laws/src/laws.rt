//! The laws of the entries of keys. Each function does nothing: its contract is the law.

ghost use Rattle.mg_image.specs.Form.{packed_form};
ghost use Rattle.mg_key_entry_laws.specs.Laws.{EntriesKeepFound, EntriesTellSpeakers, KeysStayFound, LivingRowsAreFound};
ghost use Rattle.mg_key_entry_laws.specs.Laws.{PushedKeysStayFound, SpeakersAreFound};
ghost use Rattle.mg_seek.specs.Readings.{SpeakersOfReadings};

/// The records that the entries of a key name tell which record speaks for it, and a record that speaks is among them.
pub fn entries_tell_the_speaker()
    ensures tell { EntriesTellSpeakers }
    ensures found { SpeakersOfReadings → SpeakersAreFound }
{}

/// A record has the entry of its key still after transactions have ended, and where a version is laid over its newest.
pub fn keys_stay_found()
    ensures ends { KeysStayFound }
    ensures pushed { PushedKeysStayFound }
{}

/// In a sound image the row of a record's newest version that is no dead transaction's is found.
pub fn living_rows_are_found()
    ensures { LivingRowsAreFound packed_form }
{}

/// What is found in the indexes stays found as entries are laid: each row that an active transaction sees, and the key of
/// each record whose newest version that is no dead transaction's is a deletion.
pub fn entries_keep_what_is_found()
    ensures { EntriesKeepFound packed_form }
{}
