ghost use Rattle.law_uses.specs.ReadingBack.{WritesThenReads};
ghost use Rattle.pager.specs.Moments.{moment_of};
ghost use Rattle.server.specs.Calls.{Left};
ghost use Rattle.std.specs.Prelude.{◌≡◌, OnOk};

use bank::Bank;
use page::Fault;
use pager::Pager;

/// Makes a pager of three groups, two of them spare, pages page 0 out and in again. Whatever the
/// servers do within the calls, what comes back is what was written. The first refusal ends it,
/// and leaves the buffer.
pub fn write_then_read<B: Bank>(
    pager: &mut Pager<B>,
    bytes: &[u8],
    buffer: &mut [u8],
) -> Result<(), Fault>
    ensures same { OnOk result (buffer.new ≡ bytes.now) }
    ensures left { Left result buffer.old buffer.new }
    ensures ran { WritesThenReads (moment_of B.Bank.count B.Bank.means pager.old.log) bytes.now
        buffer.old buffer.new result (moment_of B.Bank.count B.Bank.means pager.new.log) }
{
    let _capacity = pager.make(3, 2)?;
    pager.pageout(0, bytes)?;
    pager.pagein(0, buffer)
}
