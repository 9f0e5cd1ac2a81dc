//! The steps of batches.

ghost use Rattle.mg_demand_laws.specs.StepLaws.{BitsPay, CellPays, DataPays, EntryPays, FreedCellDrops, HeaderPays};
ghost use Rattle.mg_demand_laws.specs.StepLaws.{MakingPays, NextPays, PointerPays, StepsAreOne};
ghost use Rattle.mg_demand_laws.specs.StepLaws.{TakingPays, TipPays};

/// Two steps that pay, one after the other, are one that does.
pub fn steps_are_one()
    ensures { StepsAreOne }
{}

/// A page is taken: its bit is wanted newly, and nothing was wanted of it.
pub fn taken_pages_pay()
    ensures { TakingPays }
{}

/// A page of which nothing was wanted is made.
pub fn made_pages_pay()
    ensures { MakingPays }
{}

/// A number is drawn, or its bits are set.
pub fn numbers_pay()
    ensures header { HeaderPays }
    ensures page { TipPays }
    ensures bits { BitsPay }
{}

/// A table has an entry or a page more.
pub fn pointer_pages_pay()
    ensures entry { EntryPays }
    ensures next { NextPays }
    ensures data { DataPays }
    ensures pointer { PointerPays }
{}

/// A cell is put on a data page, written over, or freed.
pub fn cells_pay()
    ensures put { CellPays }
    ensures freed { FreedCellDrops }
{}
