// Appending to bytes.

ghost use Rattle.std.specs.Prelude.{◌≡◌, ◌++◌, IfOk};

use std::alloc::AllocError;

// Appends to the bytes. Where memory runs out they are dropped.
pub(crate) fn extended(bytes: Vec<u8>, more: &[u8]) -> Result<Vec<u8>, AllocError>
    ensures { IfOk result (λ longer. longer.items ≡ bytes.items ++ more.now) }
{
    let mut longer = bytes;
    longer.extend_from_slice(more)?;
    Ok(longer)
}
