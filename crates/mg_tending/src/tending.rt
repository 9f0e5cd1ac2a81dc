//! A keeper of records whose changed pages can be written one by one.

ghost use Rattle.std.specs.Prelude.{◌≡◌, true, None, IfErr, OnOk};
ghost use Rattle.mg_model.specs.declared.answer.Answer.TheVariants.{No};
ghost use Rattle.mg_model.specs.Legal.{is_outer};
ghost use Rattle.mg_records.specs.Asking.{TakesNothing, WritesOnePage};
ghost use Rattle.mg_records.specs.Crashing.{LeavesQuietly};
ghost use Rattle.mg_records.specs.Keeping.{FaultsAreTold, MeetsNoDamage, Reads, refusal_in};
ghost use Rattle.mg_records.specs.Room.{TakesFew};
ghost use Rattle.mg_records.specs.Sessions.{SessionsStay};
ghost use Rattle.mg_tending.specs.Tending.{WritesAPage};

use mg_model::Refusal;
use mg_records::Records;

/// A keeper of records whose changed pages can be written one by one.
pub trait PageWrites: Records {
    /// Writes one changed page. It answers false exactly where no page is changed. It takes no memory.
    fn write_page(&mut self) -> Result<bool, Refusal>
        ensures one { WritesAPage Self.meaning self.old self.new result }
        ensures outside { IfErr result (λ refusal. is_outer (No refusal) ≡ true) }
        ensures reads { Reads Self.meaning self.old self.new (refusal_in result) None }
        ensures told { FaultsAreTold Self.meaning self.old self.new (refusal_in result) }
        ensures undamaged { MeetsNoDamage Self.meaning self.old self.new }
        ensures room { TakesFew Self.meaning self.old self.new (refusal_in result) 0 }
        ensures written { OnOk result (WritesOnePage Self.meaning self.old self.new) }
        ensures takes { TakesNothing (refusal_in result) }
        ensures crash { LeavesQuietly Self.meaning self.old self.new }
        ensures sessions { SessionsStay Self.meaning self.old self.new None None };
}
