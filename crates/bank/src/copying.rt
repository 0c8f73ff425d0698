ghost use Rattle.bank.specs.Copy.{Copied, Copies};

use crate::Bank;
use page::{Fault, PAGE_SIZE};

// Gets a page from one server and puts it on another, at the same slot.
pub fn copy_page<B: Bank>(bank: &mut B, from: usize, to: usize, slot: usize) -> Result<(), Fault>
    ensures steps { Copies B.Bank.steps bank.old from to slot result bank.new }
    ensures copied { Copied result slot (B.Bank.means bank.old from) (B.Bank.means bank.new to) }
{
    let mut page = [0; PAGE_SIZE];
    bank.get(from, slot, &mut page)?;
    bank.put(to, slot, &page)
}
