//! A keeper of records that finds a row by its key.

ghost use Rattle.std.specs.Prelude.{◌≡◌, None, Some, IfOk, OnOk};
ghost use Rattle.mg_records.specs.Adding.{AnswersAll};
ghost use Rattle.mg_records.specs.Asking.{WritesNoPage};
ghost use Rattle.mg_records.specs.Crashing.{LeavesQuietly};
ghost use Rattle.mg_records.specs.Keeping.{FaultsAreTold, MeetsNoDamage, Reads, refusal_in};
ghost use Rattle.mg_records.specs.Room.{TakesFew};
ghost use Rattle.mg_records.specs.Sessions.{SessionsStay};
ghost use Rattle.mg_tending.specs.Keyed.{HaveTheirKeys, IsSeenAt};

use mg_base::TxNo;
use mg_model::{Refusal, Table};
use mg_records::Records;
use mg_value::{Key, Row};

/// A keeper of records that finds a row by its key.
pub trait Keyed: Records {
    /// The row with a key that the transaction sees, None where it sees none. It is no event. Where it is answered, no
    /// other row of the table has that key in the column of the key.
    fn row_with_key(&mut self, t: TxNo, table: &Table, key: &Key) -> Result<Option<Row>, Refusal>
        requires table { Self.meaning.table self.old t.0 table.now.name ≡ Some table.now }
        ensures finds { IfOk result (IsSeenAt Self.meaning self.old t.0 table.now.name key.now) }
        ensures keyed { OnOk result (HaveTheirKeys Self.meaning self.old t.0 table.now) }
        ensures answers { AnswersAll Self.meaning self.old t.0 result }
        ensures reads { Reads Self.meaning self.old self.new (refusal_in result) None }
        ensures told { FaultsAreTold Self.meaning self.old self.new (refusal_in result) }
        ensures undamaged { MeetsNoDamage Self.meaning self.old self.new }
        ensures room { TakesFew Self.meaning self.old self.new (refusal_in result) 0 }
        ensures unwritten { WritesNoPage Self.meaning self.old self.new }
        ensures crash { LeavesQuietly Self.meaning self.old self.new }
        ensures sessions { SessionsStay Self.meaning self.old self.new None None };
}
