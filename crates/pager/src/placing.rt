ghost use Rattle.std.specs.Prelude.{◌≡◌, ◌+◌, ◌<◌, ◌≤◌};
ghost use Rattle.parity_log.specs.LogState.{LogState, with_tables};
ghost use Rattle.parity_log.specs.Owners.{Changes};
ghost use Rattle.parity_log.specs.Paging.{close_full, closed_log, free_on, place as place_rule, placed_log, release as release_rule, release_old, released_old};
ghost use Rattle.parity_log.specs.Rule.{Ends};
ghost use Rattle.parity_log.specs.Tables.{with_state};
ghost use Rattle.parity_log.specs.declared.records.GroupState.TheVariants.{Free};
ghost use Rattle.parity_log.specs.declared.records.PageState.TheVariants.{Out};
ghost use Rattle.pager.specs.Places.{Fit, placed_as};
ghost use Rattle.std.specs.List.{range_with_len};
ghost use Rattle.pager.specs.Moments.{log_state};

use crate::log::Log;
use bank::Bank;
use page::{PAGE_SIZE, Page};
use parity_log::PageState;

// Frees a group's slot on every server, the parity server last.
fn free_slots<B: Bank>(bank: &mut B, servers: usize, group: usize)
    requires { servers ≤ 8 }
    ensures { (l : LogState) → Ends B.Bank.steps (free_on (range_with_len 0 (servers + 1)) group l) bank.old l bank.new }
{
    for server in 0..servers + 1 {
        let _ = bank.free(server, group);
    }
}

impl<B: Bank> Log<B> {
    // A group becomes free.
    pub(crate) fn release(&mut self, group: usize)
        requires { group < 32 }
        ensures log { log_state self.new ≡ with_tables (log_state self.old) (with_state self.old.ledger.tables group Free) }
        ensures ran { Ends B.Bank.steps (release_rule (log_state self.old) group) self.old.bank (log_state self.new) self.new.bank }
    {
        self.ledger.free_group(group);
        free_slots(&mut self.bank, self.ledger.tables.shape.servers, group);
    }

    // A group that a page left becomes free if it is closed and nothing in it is live.
    pub(crate) fn release_old(&mut self, old: Option<usize>)
        requires { Fit old }
        ensures log { log_state self.new ≡ with_tables (log_state self.old) (released_old old self.old.ledger.tables) }
        ensures ran { Ends B.Bank.steps (release_old old (log_state self.old)) self.old.bank (log_state self.new) self.new.bank }
    {
        if let Some(group) = old {
            if self.ledger.unused(group) {
                self.release(group);
            }
        }
    }

    // A full group's parity is put, whether or not that is done, and cleared, and the group is closed.
    pub(crate) fn close_full(&mut self, group: usize)
        requires { group < 32 }
        ensures log { log_state self.new ≡ closed_log (log_state self.old) group }
        ensures ran { Ends B.Bank.steps (close_full (log_state self.old) group) self.old.bank (log_state self.new) self.new.bank }
    {
        let servers = self.ledger.tables.shape.servers;
        if self.ledger.tables.filled == servers {
            let _ = self.bank.put(servers, group, &self.running.0);
            self.ledger.shut(group);
            self.running = Page::zero();
        }
    }

    // Puts a page at the next position of the open group, and answers whether that was done; the page is out there all the same.
    pub(crate) fn place(&mut self, group: usize, page: usize, bytes: &[u8; PAGE_SIZE]) -> bool
        requires room { self.old.ledger.tables.filled < self.old.ledger.tables.shape.servers }
        requires changes { Changes self.old.ledger.tables page (Out group self.old.ledger.tables.filled) }
        ensures log { log_state self.new ≡ placed_log (log_state self.old) group page bytes.now }
        ensures ran { Ends B.Bank.steps (place_rule (log_state self.old) group page bytes.now) self.old.bank (placed_as result (log_state self.new)) self.new.bank }
    {
        let position = self.ledger.tables.filled;
        let done = self.bank.put(position, group, bytes).is_ok();
        self.ledger
            .set_page(page, PageState::Out { group, position });
        self.ledger.fill_next();
        self.running.add(bytes);
        done
    }
}
