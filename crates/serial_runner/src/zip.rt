// What is kept while something else is made.
ghost use Rattle.serial_runner.specs.Zips.{Zips};

use strand_machine::Memory;

// A value, zipped with what was made meanwhile. It is dropped where there was no memory.
pub(crate) fn zip<A: Drop, B>(before: A, made: Result<B, Memory>) -> Result<(A, B), Memory>
    ensures { Zips before made result }
{
    match made {
        Ok(made) => Ok((before, made)),
        Err(memory) => Err(memory),
    }
}
