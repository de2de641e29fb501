ghost use Rattle.std.specs.Prelude.{◌≡◌, ◌++◌, decimal, OnErr, OnOk};
ghost use Rattle.ped_path.specs.Text.{ped_text, AppendsFront};

use crate::memory::Memory;
use crate::pedigree::Pedigree;
use crate::ranks::Ranks;
use itoa::Buffer;

fn write_rank(rank: u64, out: &mut Vec<u8>) -> Result<(), Memory>
    ensures ok { OnOk result (out.new.items ≡ out.old.items ++ decimal rank) }
    ensures err { OnErr result (out.new.items ≡ out.old.items) }
{
    out.extend_from_slice(Buffer::new().format(rank).as_bytes())?;
    Ok(())
}

/// Appends the text of a pedigree: its ranks in decimal, joined by full stops. On `Memory` a prefix of the text may have been
/// appended.
pub fn write_pedigree(j: &Pedigree, out: &mut Vec<u8>) -> Result<(), Memory>
    ensures ok { OnOk result (out.new.items ≡ out.old.items ++ ped_text j.now) }
    ensures front { AppendsFront out.old.items out.new.items (ped_text j.now) }
{
    for i in 0..j.path.len() {
        write_rank(j.path.rank(i), out)?;
        out.push(b'.')?;
    }
    write_rank(j.rank, out)?;
    Ok(())
}
