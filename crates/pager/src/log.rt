ghost use Rattle.parity_log.specs.Order.{Limited};
ghost use Rattle.parity_log.specs.Linked.{Linked};

use page::Page;
use parity_log::Ledger;

// The log over a bank of S data servers and a parity server, also within a call: its tables and, beside them, the running parity of the open group.
#[derive(Drop)]
pub(crate) struct Log<B> {
    pub(crate) running: Page,
    pub(crate) ledger: Ledger,
    pub(crate) bank: B,
    ghost limited: { Limited ledger.tables },
    pub ghost linked: { Linked ledger },
}
