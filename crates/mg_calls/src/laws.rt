//! Laws.

ghost use Rattle.mg_calls.specs.FindLaws.{MachineFinds};
ghost use Rattle.mg_calls.specs.WalkLaws.{WalksGoOn, WalksStayReady};

use mg_records::Records;

/// What the machine finds in a table is what passes a filter of the rows that the transaction sees.
pub fn the_machine_finds_what_is_seen()
    ensures { MachineFinds }
{}

/// A walk goes on as it would have where calls for other transactions come between its steps.
pub fn walks_go_on_beside_others<R: Records>()
    ensures come { WalksGoOn R.meaning }
    ensures ready { WalksStayReady R.meaning }
{}
