//! What holds of these rungs. Each function does nothing: its contract is the law.

ghost use Rattle.mg_check_inventory.specs.InventoryRung.{InventoryLaw};
ghost use Rattle.mg_check_inventory.specs.TransactionRung.{TransactionLaw};

use mg_check_pages::undrawn_numbers_pass;

/// Nothing is found in a page inventory exactly where it is as a sound image asks it.
pub fn lawful_inventories_pass()
    ensures { InventoryLaw }
{}

/// Nothing is found in a transaction inventory exactly where it is as a sound image asks it, if the
/// header's fields are lawful.
pub fn lawful_transactions_pass()
    ensures { TransactionLaw }
{
    undrawn_numbers_pass();
}
