ghost use Rattle.std.specs.Prelude.{◌≡◌, ◌+◌, Ok, Err};
ghost use Rattle.bank.specs.Laws.{end_laws, pair_laws};
ghost use Rattle.bank.specs.Rows.{Pairs, absent, means_at, nowhere};

use crate::{Bank, PullableBank};
use page::{Fault, Layer, Refusal};
use server::{PageServer, Pullable};

// A server and the rest of the row: `Pair(a, Pair(b, End))` is a row of two.
#[derive(Drop)]
pub struct Pair<S, B>(pub S, pub B);

// A row of none.
#[derive(Clone, Copy)]
pub struct End;

fn no_server() -> Fault
    ensures { result ≡ absent }
{
    Fault::new(Layer::Server, Refusal::Range)
}

impl<S: PageServer, B: Bank> Bank for Pair<S, B> {
    ghost count = { λ s. B.Bank.count s.1 + 1 };

    ghost means = { λ s. means_at (S.PageServer.meaning s.0) (B.Bank.means s.1) };

    ghost steps = { λ s i c a t. Pairs (λ x y. S.PageServer.steps x c a y) (λ x j y. B.Bank.steps x j c a y) s.0 s.1 i t.0 t.1 };

    ghost laws = { pair_laws (λ s. s.0) (λ s. s.1) (λ s t p q i. (p i, q i)) S.PageServer.laws B.Bank.laws };

    fn servers(&self) -> usize {
        self.1.servers().saturating_add(1)
    }

    fn size(&self, server: usize) -> Result<usize, Fault> {
        if server == 0 {
            Ok(self.0.size())
        } else {
            self.1.size(server - 1)
        }
    }

    fn put(&mut self, server: usize, slot: usize, page: &[u8]) -> Result<(), Fault> {
        if server == 0 {
            self.0.put(slot, page)
        } else {
            self.1.put(server - 1, slot, page)
        }
    }

    fn get(&mut self, server: usize, slot: usize, buffer: &mut [u8]) -> Result<(), Fault> {
        if server == 0 {
            self.0.get(slot, buffer)
        } else {
            self.1.get(server - 1, slot, buffer)
        }
    }

    fn free(&mut self, server: usize, slot: usize) -> Result<(), Fault> {
        if server == 0 {
            self.0.free(slot)
        } else {
            self.1.free(server - 1, slot)
        }
    }
}

impl Bank for End {
    ghost count = { λ _. 0 };

    ghost means = { λ _ _. nowhere };

    ghost steps = { λ s i c a t. (a ≡ Err absent) × (t ≡ s) };

    ghost laws = { end_laws };

    fn servers(&self) -> usize {
        0
    }

    fn size(&self, _server: usize) -> Result<usize, Fault> {
        Err(no_server())
    }

    fn put(&mut self, _server: usize, _slot: usize, _page: &[u8]) -> Result<(), Fault> {
        Err(no_server())
    }

    fn get(&mut self, _server: usize, _slot: usize, _buffer: &mut [u8]) -> Result<(), Fault> {
        Err(no_server())
    }

    fn free(&mut self, _server: usize, _slot: usize) -> Result<(), Fault> {
        Err(no_server())
    }
}

impl<S: Pullable, B: PullableBank> PullableBank for Pair<S, B> {
    ghost falls = { λ s i a t. Pairs (λ x y. (a ≡ Ok tt) × S.Pullable.falls x y) (λ x j y. B.PullableBank.falls x j a y) s.0 s.1 i t.0 t.1 };

    ghost backs = { λ s i a t. Pairs (λ x y. S.Pullable.backs x a y) (λ x j y. B.PullableBank.backs x j a y) s.0 s.1 i t.0 t.1 };

    fn fall(&mut self, server: usize) -> Result<(), Fault> {
        if server == 0 {
            self.0.fall();
            Ok(())
        } else {
            self.1.fall(server - 1)
        }
    }

    fn back(&mut self, server: usize) -> Result<(), Fault> {
        if server == 0 {
            self.0.back()
        } else {
            self.1.back(server - 1)
        }
    }
}

impl PullableBank for End {
    ghost falls = { λ s i a t. (a ≡ Err absent) × (t ≡ s) };

    ghost backs = { λ s i a t. (a ≡ Err absent) × (t ≡ s) };

    fn fall(&mut self, _server: usize) -> Result<(), Fault> {
        Err(no_server())
    }

    fn back(&mut self, _server: usize) -> Result<(), Fault> {
        Err(no_server())
    }
}
