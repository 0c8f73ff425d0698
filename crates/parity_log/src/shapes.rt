ghost use Rattle.parity_log.specs.Faults.{made_shape, objection, on_page, refused_by};
ghost use Rattle.parity_log.specs.Rebuilding.{misfit};
ghost use Rattle.parity_log.specs.Tables.{capacity, weight, within};
ghost use Rattle.std.specs.Prelude.{◌≡◌, ◌<◌, true};

use crate::records::{MOST_GROUPS, MOST_SERVERS, Progress, Shape, Tables};
use page::{Fault, Layer, PAGE_SIZE, Refusal};

const PARITY_WEIGHT: u16 = 256;

impl Shape {
    // Whether a pager can have this shape.
    pub fn is_within(self) -> bool
        ensures { result ≡ within self }
    {
        3 <= self.groups
            && self.groups <= MOST_GROUPS
            && 2 <= self.spares
            && self.spares < self.groups
            && 2 <= self.servers
            && self.servers <= MOST_SERVERS
    }

    // How many pages a pager of this shape has.
    pub fn capacity(self) -> usize
        requires { within self ≡ true }
        ensures { result ≡ capacity self }
    {
        (self.groups - self.spares) * self.servers
    }

    // What the member on this server adds to a missing set.
    pub fn weight(self, server: usize) -> u16
        requires { server < 16 }
        ensures { result ≡ weight self.servers server }
    {
        if server == self.servers {
            PARITY_WEIGHT
        } else {
            1u16 << server
        }
    }
}

impl Tables {
    // The shape, if the pager was made.
    pub fn made(&self) -> Result<Shape, Fault>
        ensures { result ≡ made_shape self.now }
    {
        if self.shape.is_within() {
            Ok(self.shape)
        } else {
            Err(Fault::new(Layer::Log, Refusal::Shape))
        }
    }

    // What a caller is refused for before any server is asked: shape, then range, then length.
    pub fn admit(&self, page: usize, length: usize) -> Result<(), Fault>
        ensures { result ≡ refused_by (objection self.now page length) }
    {
        let shape = self.made()?;
        if page >= shape.capacity() {
            return Err(Fault::new(Layer::Log, Refusal::Range).of_page(page));
        }
        if length != PAGE_SIZE {
            return Err(Fault::new(Layer::Log, Refusal::Length).of_page(page));
        }
        Ok(())
    }

    // What a step of a rebuild is refused for: a pager that is not made, and then one with other numbers than the job's.
    pub fn admit_job(&self, progress: Progress) -> Result<(), Fault>
        ensures { result ≡ refused_by (misfit self.now progress) }
    {
        let shape = self.made()?;
        if progress.servers != shape.servers || progress.groups != shape.groups {
            return Err(Fault::new(Layer::Log, Refusal::Range));
        }
        Ok(())
    }
}
