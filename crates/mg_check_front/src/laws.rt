//! What holds of these rungs. The function does nothing: its contract is the law.

ghost use Rattle.mg_check_front.specs.Front.{FrontLaw};

use mg_check_inventory::{lawful_inventories_pass, lawful_transactions_pass};
use mg_check_pages::lawful_headers_pass;

/// Nothing is found on the three rungs exactly where header, page inventory and transactions are as a sound image asks
/// it.
pub fn lawful_fronts_pass()
    ensures { FrontLaw }
{
    lawful_headers_pass();
    lawful_inventories_pass();
    lawful_transactions_pass();
}
