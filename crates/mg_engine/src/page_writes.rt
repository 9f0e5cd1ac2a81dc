//! Page writes between calls.

ghost use Rattle.std.specs.Prelude.{None, OnOk};
ghost use Rattle.mg_records.specs.Asking.{TakesNothing, WritesOnePage};
ghost use Rattle.mg_records.specs.Crashing.{LeavesQuietly};
ghost use Rattle.mg_records.specs.Keeping.{FaultsAreTold, MeetsNoDamage, Reads, refusal_in};
ghost use Rattle.mg_records.specs.Room.{TakesFew};
ghost use Rattle.mg_records.specs.Sessions.{SessionsStay};
ghost use Rattle.mg_core.specs.Committing.{WritesPage};
ghost use Rattle.mg_engine_meaning_laws.specs.NextPages.{WritesNext};
ghost use Rattle.mg_engine_meaning_laws.specs.Meaning.{means, means_with_room};
ghost use Rattle.mg_engine.specs.Places.{places};

use crate::engine::Engine;
use mg_base::{Disk, PageNo};
use mg_core::Place;
use mg_engine_change_laws::{commits_want_nothing, page_writes_ask_one, page_writes_tell_faults};
use mg_engine_meaning_laws::next_pages_go_on;
use mg_model::Refusal;
use mg_no_damage_laws::{commits_meet_no_damage, commits_take_none};

impl<D: Disk> Engine<D> {
    /// Writes one dirty page: the least one, or one that must precede it. The answer is its number, None exactly
    /// where no page is dirty, and then nothing has changed. It takes no memory.
    ///
    /// # Errors
    ///
    /// `Offline` exactly where a page write has failed before; `DiskWrite` only where the disk's count of faults rose
    /// in this call.
    pub fn write_page(&mut self) -> Result<Option<PageNo>, Refusal>
        ensures next { WritesNext (means D.meaning places) self.old self.new result }
        ensures writes { WritesPage D.meaning self.old self.new result }
        ensures reads { Reads (means_with_room D.meaning places) self.old self.new (refusal_in result) None }
        ensures told { FaultsAreTold (means_with_room D.meaning places) self.old self.new (refusal_in result) }
        ensures undamaged { MeetsNoDamage (means_with_room D.meaning places) self.old self.new }
        ensures room { TakesFew (means_with_room D.meaning places) self.old self.new (refusal_in result) 0 }
        ensures written { OnOk result (WritesOnePage (means_with_room D.meaning places) self.old self.new) }
        ensures takes { TakesNothing (refusal_in result) }
        ensures crash { LeavesQuietly (means_with_room D.meaning places) self.old self.new }
        ensures sessions { SessionsStay (means_with_room D.meaning places) self.old self.new None None }
    {
        page_writes_tell_faults::<D>();
        page_writes_ask_one::<D>();
        commits_want_nothing::<D>();
        commits_meet_no_damage::<D>();
        commits_take_none::<D>();
        next_pages_go_on::<D, Place>();
        self.core.write_page()
    }
}
