// The check of a block.
ghost use Rattle.std.specs.Prelude.{◌≡◌, take};
ghost use Rattle.sink.specs.Check.{check};

use crate::layout::Block;

// The check of a block's first 510 bytes.
pub(crate) fn check_of(block: &Block) -> (u8, u8)
    ensures { result ≡ check (take 510 block.now) }
{
    let mut sum: u32 = 0;
    let mut run: u32 = 0;
    for b in &block[..510] {
        sum += u32::from(*b);
        run += sum;
    }
    ((sum % 255) as u8, (run % 255) as u8)
}
