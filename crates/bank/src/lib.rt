//! A row of page servers of any kinds, told by number from 0.
#![tactic(auto)]

mod copying;
mod rows;

ghost use Rattle.std.specs.Prelude.{◌≡◌, ℕ, min, length, Result as Outcome};
ghost use Rattle.bank.specs.Pulling.{Fell};
ghost use Rattle.bank.specs.Rows.{Reaches, Rowed, SizeAt};
ghost use Rattle.page.specs.declared.faults.Fault.{Fault as Refused};
ghost use Rattle.server.specs.Calls.{Answer, Call, Left, filled, to_free, to_get, to_put};
ghost use Rattle.server.specs.Meaning.{Meaning};
ghost use Rattle.server.specs.Pulls.{Backs};

pub use copying::copy_page;
use page::Fault;
pub use rows::{End, Pair};

// A row of servers: each call names one of them, and a number past the end is refused.
pub trait Bank {
    // How many servers there are.
    ghost count: { Self → ℕ };

    // What each server is to its callers.
    ghost means: { Self → ℕ → Meaning };

    // The row's own rule: what one call on a server answers, and what it leaves.
    ghost steps: { Self → ℕ → (c : Call) → Answer c → Self → Type 0 };

    // The rule is one of a row of page servers, as its callers know it.
    ghost laws: { Rowed count means steps };

    // The count, or the largest number where it is more.
    fn servers(&self) -> usize
        ensures { result ≡ min (count self.now) 18446744073709551615 };

    // That server's size.
    fn size(&self, server: usize) -> Result<usize, Fault>
        ensures { SizeAt (count self.now) (means self.now) server result };

    fn put(&mut self, server: usize, slot: usize, page: &[u8]) -> Result<(), Fault>
        ensures { steps self.old server (to_put slot page.now) result self.new };

    fn get(&mut self, server: usize, slot: usize, buffer: &mut [u8]) -> Result<(), Fault>
        ensures steps { steps self.old server (to_get slot (length buffer.old)) (filled result buffer.new) self.new }
        ensures left { Left result buffer.old buffer.new };

    fn free(&mut self, server: usize, slot: usize) -> Result<(), Fault>
        ensures { steps self.old server (to_free slot) result self.new };
}

// A row whose servers can be made to fall and be brought back.
pub trait PullableBank: Bank {
    // The row's own rules of the two calls.
    ghost falls: { Self → ℕ → Outcome (Unit {0}) Refused → Self → Type 0 };

    ghost backs: { Self → ℕ → Outcome (Unit {0}) Refused → Self → Type 0 };

    fn fall(&mut self, server: usize) -> Result<(), Fault>
        ensures falls { falls self.old server result self.new }
        ensures meets { Reaches Fell (Self.count self.old) (Self.means self.old) server result (Self.count self.new) (Self.means self.new) };

    fn back(&mut self, server: usize) -> Result<(), Fault>
        ensures backs { backs self.old server result self.new }
        ensures meets { Reaches Backs (Self.count self.old) (Self.means self.old) server result (Self.count self.new) (Self.means self.new) };
}
