//! The plain machine has no pages, so none is ever changed; and it keeps no version of a record, so none is collected.

ghost use Rattle.mg_plain.specs.Records.{keeps_none, means};

use crate::Plain;
use mg_base::TxNo;
use mg_model::{Refusal, Table};
use mg_tending::{Collects, PageWrites};
use mg_value::Key;

impl PageWrites for Plain {
    fn write_page(&mut self) -> Result<bool, Refusal> {
        Ok(false)
    }
}

impl Collects for Plain {
    ghost collecting = { keeps_none };

    fn collect_place(&mut self, _t: TxNo, _table: &Table, _place: &usize) -> Result<bool, Refusal> {
        Ok(false)
    }

    fn collect_key(&mut self, _t: TxNo, _table: &Table, _key: &Key) -> Result<bool, Refusal> {
        Ok(false)
    }

    fn collect_all(&mut self) -> Result<(), Refusal> {
        Ok(())
    }
}
