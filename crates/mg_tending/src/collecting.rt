//! A keeper of records that collects what its readers come to.

ghost use Rattle.std.specs.Prelude.{◌≡◌, true, None, Some, IfErr, IfOk, OnOk};
ghost use Rattle.mg_model.specs.declared.answer.Answer.TheVariants.{No};
ghost use Rattle.mg_model.specs.declared.opening.Opening.{Opening};
ghost use Rattle.mg_model.specs.History.{Entries};
ghost use Rattle.mg_model.specs.Legal.{is_outer};
ghost use Rattle.mg_records.specs.Asking.{TakesNoPage};
ghost use Rattle.mg_records.specs.Crashing.{LeavesQuietly};
ghost use Rattle.mg_records.specs.Keeping.{FaultsAreTold, MeetsNoDamage, Reads, refusal_in};
ghost use Rattle.mg_records.specs.Room.{TakesFew};
ghost use Rattle.mg_records.specs.Sessions.{SessionsStay};
ghost use Rattle.mg_tending.specs.Collecting.{AreAsFar, Collecting, Collects as CollectsOf, CollectsEach, CollectsKey};

use mg_base::TxNo;
use mg_model::{Refusal, Table};
use mg_records::Records;
use mg_value::Key;

/// A keeper of records that collects what its readers come to.
pub trait Collects: Records {
    /// Which records stand at places, and which of their versions are kept.
    ghost collecting: { Collecting Self Self.Place };

    /// Collects the record at a place of a table that was given to an active transaction: what nobody needs of its versions
    /// goes. True exactly where something went. A slot that is no record of the table is left as it is.
    ///
    /// It is no event: who reads, writes or commits goes on as before, and so does the walk that has come to the place. It
    /// takes no page, and may write some.
    ///
    /// # Errors
    ///
    /// From outside alone, and never for want of pages. What has gone by then stays gone, and what is left stands for the
    /// same history.
    fn collect_place(
        &mut self,
        t: TxNo,
        table: &Table,
        place: &Self::Place,
    ) -> Result<bool, Refusal>
        requires table { Self.meaning.table self.old t.0 table.now.name ≡ Some table.now }
        ensures collects { IfOk result (λ gone.
            CollectsOf Self.meaning collecting self.old self.new table.now place.now gone) }
        ensures outside { IfErr result (λ refusal. is_outer (No refusal) ≡ true) }
        ensures reads { Reads Self.meaning self.old self.new (refusal_in result) None }
        ensures far { AreAsFar Self.meaning self.old self.new }
        ensures told { FaultsAreTold Self.meaning self.old self.new (refusal_in result) }
        ensures undamaged { MeetsNoDamage Self.meaning self.old self.new }
        ensures room { TakesFew Self.meaning self.old self.new (refusal_in result) 0 }
        ensures unpaged { (o : Opening) (h : Entries) → Self.meaning.stands self.old o h
            → TakesNoPage (refusal_in result) }
        ensures crash { LeavesQuietly Self.meaning self.old self.new }
        ensures sessions { SessionsStay Self.meaning self.old self.new None None };

    /// Collects the record that speaks for a key of a table that was given to an active transaction, as `collect_place`
    /// does: who asked for a row by its key has visited that record. False where no record speaks for the key.
    ///
    /// # Errors
    ///
    /// As `collect_place`.
    fn collect_key(&mut self, t: TxNo, table: &Table, key: &Key) -> Result<bool, Refusal>
        requires table { Self.meaning.table self.old t.0 table.now.name ≡ Some table.now }
        ensures collects { IfOk result (CollectsKey Self.meaning collecting self.old self.new table.now key.now) }
        ensures outside { IfErr result (λ refusal. is_outer (No refusal) ≡ true) }
        ensures reads { Reads Self.meaning self.old self.new (refusal_in result) None }
        ensures told { FaultsAreTold Self.meaning self.old self.new (refusal_in result) }
        ensures undamaged { MeetsNoDamage Self.meaning self.old self.new }
        ensures room { TakesFew Self.meaning self.old self.new (refusal_in result) 0 }
        ensures unpaged { (o : Opening) (h : Entries) → Self.meaning.stands self.old o h
            → TakesNoPage (refusal_in result) }
        ensures crash { LeavesQuietly Self.meaning self.old self.new }
        ensures sessions { SessionsStay Self.meaning self.old self.new None None };

    /// Collects each record of each committed table, as `collect_place` does, whoever works.
    ///
    /// # Errors
    ///
    /// As `collect_place`, at the first record that is not collected.
    fn collect_all(&mut self) -> Result<(), Refusal>
        ensures collects { OnOk result (CollectsEach Self.meaning collecting self.old self.new) }
        ensures outside { IfErr result (λ refusal. is_outer (No refusal) ≡ true) }
        ensures reads { Reads Self.meaning self.old self.new (refusal_in result) None }
        ensures told { FaultsAreTold Self.meaning self.old self.new (refusal_in result) }
        ensures undamaged { MeetsNoDamage Self.meaning self.old self.new }
        ensures room { TakesFew Self.meaning self.old self.new (refusal_in result) 0 }
        ensures unpaged { (o : Opening) (h : Entries) → Self.meaning.stands self.old o h
            → TakesNoPage (refusal_in result) }
        ensures crash { LeavesQuietly Self.meaning self.old self.new }
        ensures sessions { SessionsStay Self.meaning self.old self.new None None };
}
