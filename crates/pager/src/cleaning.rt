ghost use Rattle.std.specs.Prelude.{◌≡◌, ◌+◌, ◌<◌, Some as Just, None as Nothing};
ghost use Rattle.parity_log.specs.Choices.{next_free, open_group};
ghost use Rattle.parity_log.specs.Order.{Cleaning, SettledLog};
ghost use Rattle.parity_log.specs.Paging.{clean as clean_rule, move as move_rule, move_all, open_next_rule, ready as ready_rule, with_open};
ghost use Rattle.parity_log.specs.Rule.{Ends};
ghost use Rattle.parity_log.specs.Tables.{page_at};
ghost use Rattle.pager.specs.Places.{Ready};
ghost use Rattle.std.specs.List.{range_with_len};
ghost use Rattle.pager.specs.Moments.{log_state};

use crate::log::Log;
use bank::Bank;
use page::Page;
use parity_log::PageState;

impl<B: Bank> Log<B> {
    // Moves the page at a position of the group being cleaned, if one is out there; one that can't be read becomes lost.
    fn move_one(&mut self, into: usize, from: usize, position: usize)
        requires cleaning { Cleaning self.old.ledger.tables into from position }
        requires position { position < self.old.ledger.tables.shape.servers }
        ensures cleaning { Cleaning self.new.ledger.tables into from (position + 1) }
        ensures shape { self.new.ledger.tables.shape ≡ self.old.ledger.tables.shape }
        ensures ran { Ends B.Bank.steps (move_rule (log_state self.old) into from position (page_at self.old.ledger.tables.pages from position)) self.old.bank (log_state self.new) self.new.bank }
    {
        let Some(page) = self.ledger.page_at(from, position) else {
            return;
        };
        let mut bytes = Page::zero();
        match self.read(from, position, &mut bytes.0) {
            Ok(_) => {
                self.place(into, page, &bytes.0);
            }
            Err(missing) => self.ledger.set_page(
                page,
                PageState::Lost {
                    group: from,
                    missing,
                },
            ),
        }
    }

    fn move_all(&mut self, into: usize, from: usize)
        requires { Cleaning self.old.ledger.tables into from 0 }
        ensures cleaning { Cleaning self.new.ledger.tables into from self.new.ledger.tables.shape.servers }
        ensures shape { self.new.ledger.tables.shape ≡ self.old.ledger.tables.shape }
        ensures ran { Ends B.Bank.steps (move_all (range_with_len 0 self.old.ledger.tables.shape.servers) into from (log_state self.old)) self.old.bank (log_state self.new) self.new.bank }
    {
        let servers = self.ledger.tables.shape.servers;
        for position in 0..servers {
            self.move_one(into, from, position);
        }
    }

    // Moves what is live in a group into the open one, and frees the group.
    fn clean(&mut self, into: usize, from: usize)
        requires { Cleaning self.old.ledger.tables into from 0 }
        ensures ready { Ready self.new.ledger.tables into }
        ensures shape { self.new.ledger.tables.shape ≡ self.old.ledger.tables.shape }
        ensures ran { Ends B.Bank.steps (clean_rule (log_state self.old) into (Just from)) self.old.bank (log_state self.new) self.new.bank }
    {
        self.move_all(into, from);
        self.release(from);
    }

    // Opens the next group; the last free one only for a cleaning.
    fn open_next(&mut self) -> usize
        requires settled { SettledLog (log_state self.old) }
        requires none_open { open_group self.old.ledger.tables ≡ Nothing }
        ensures ready { Ready self.new.ledger.tables result }
        ensures shape { self.new.ledger.tables.shape ≡ self.old.ledger.tables.shape }
        ensures ran { Ends B.Bank.steps (open_next_rule (log_state self.old) (next_free self.old.ledger.tables)) self.old.bank (ready_rule result (log_state self.new)) self.new.bank }
    {
        let group = self.ledger.tables.next_free();
        if self.ledger.tables.free_count() > 1 {
            self.ledger.open(group);
            return group;
        }
        let fewest = self.ledger.fewest_live();
        self.ledger.open(group);
        if let Some(from) = fewest {
            self.clean(group, from);
        }
        group
    }

    // The open group, or one that is opened now.
    pub(crate) fn ready(&mut self) -> usize
        requires { SettledLog (log_state self.old) }
        ensures ready { Ready self.new.ledger.tables result }
        ensures shape { self.new.ledger.tables.shape ≡ self.old.ledger.tables.shape }
        ensures ran { Ends B.Bank.steps (with_open (log_state self.old) (open_group self.old.ledger.tables)) self.old.bank (ready_rule result (log_state self.new)) self.new.bank }
    {
        match self.ledger.tables.open_group() {
            Some(group) => group,
            None => self.open_next(),
        }
    }
}
