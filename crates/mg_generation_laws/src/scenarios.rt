//! Small histories in which versions are computed.

ghost use Rattle.mg_generation_laws.specs.Scenarios.{OneInFront, RolledBackIsGone, ErasedIsInFront};
ghost use Rattle.mg_generation_laws.specs.Scenarios.{EachSeesItsOwn, CommittedIsShown, TakenBackIsGone};

/// Two transactions write one row, and one of them rolls back.
pub fn two_transactions_write()
    ensures one_in_front { OneInFront }
    ensures rolled_back { RolledBackIsGone }
    ensures erased { ErasedIsInFront }
    ensures sees { EachSeesItsOwn }
    ensures committed { CommittedIsShown }
{}

/// A transaction takes back a part of what it wrote, and then all of it.
pub fn a_transaction_takes_back()
    ensures { TakenBackIsGone }
{}
