// Numbers in fewer bytes.

ghost use Rattle.std.specs.Prelude.{◌≡◌, IfOk};

use crate::memory::Memory;

// An index or a count in four bytes. `Memory` where it is greater, which never happens: a script is shorter, and fewer
// calls are open.
pub(crate) fn narrowed(number: usize) -> Result<u32, Memory>
    ensures { IfOk result (λ n. n ≡ number) }
{
    if number > u32::MAX as usize {
        return Err(Memory);
    }
    Ok(number as u32)
}
