//! The law.

ghost use Rattle.mg_space.specs.FreePages.{TakingKeepsRegions};
ghost use Rattle.mg_free_page_laws.specs.RowSpending.{BatchLaws};

use mg_base::Disk;

/// How many pages each batch takes.
pub fn batches_take_few<D: Disk>()
    ensures { TakingKeepsRegions → BatchLaws D.meaning }
{}
