//! The rows of the table.

ghost use Rattle.mg_demand_laws.specs.OrderRows.{BackRow, BitsRow, CatalogRow, ChildRow, EntryRow, FreedRow, LastTipRow, NextPointerRow, NumberRow, PrevTipRow, RightRow, SlotRow};

use crate::orders_are_needed;
use mg_space::FireLinks;

/// What the header and the transaction inventory pages come after.
pub fn number_rows()
    ensures last { LastTipRow }
    ensures catalog { CatalogRow }
    ensures prev { PrevTipRow }
    ensures decided { BitsRow }
{
    orders_are_needed::<FireLinks>()
}

/// What the pointer pages come after.
pub fn table_rows()
    ensures entry { EntryRow }
    ensures next { NextPointerRow }
{
    orders_are_needed::<FireLinks>()
}

/// What versions, primary slots and freed cells come after.
pub fn version_rows()
    ensures number { NumberRow }
    ensures back { BackRow }
    ensures slot { SlotRow }
    ensures freed { FreedRow }
{
    orders_are_needed::<FireLinks>()
}

/// What index pages come after.
pub fn index_rows()
    ensures child { ChildRow }
    ensures right { RightRow }
{
    orders_are_needed::<FireLinks>()
}
