ghost use Rattle.std.specs.Prelude.{◌≡◌, ◌+◌, ◌<◌, ◌≤◌, ◌^◌, length, IfErr, IfOk};
ghost use Rattle.std.specs.Char.{is_ascii_digit};
ghost use Rattle.std.specs.List.{prefix_len};
ghost use Rattle.std.specs.Option.{SomeIff};
ghost use Rattle.std.specs.Str.Parse.{AllDigits, digits_value};
ghost use Rattle.ped_path.specs.Text.{ped_text};
ghost use Rattle.ped_path.specs.Parsing.{IsRefused, IsRankFault, IsRankThen};

use crate::memory::Memory;
use crate::ped::Ped;
use crate::pedigree::Pedigree;
use std::alloc::Global;

// How many ranks a text may have.
const MOST_RANKS: u32 = 512;

// The greatest rank.
const MOST_RANK: u64 = 4_294_967_295;

/// Why a text isn't a pedigree's. A text is read from left to right, and offsets count bytes from 0.
#[derive(Clone, Copy, Debug, PartialEq, Eq)]
pub enum PedTextError {
    /// The text is empty.
    Empty,
    /// At this offset a digit should stand, and there is another byte or the end; or a rank is followed by neither a full stop nor
    /// the end.
    BadByte(u32),
    /// The rank that begins at this offset has a needless zero: a 0 with a digit after it.
    Zeros(u32),
    /// The rank that begins at this offset is above 4294967295.
    TooBig(u32),
    /// A full stop follows the 512th rank.
    TooLong,
    /// There was no memory for the call.
    Memory,
}

impl From<Memory> for PedTextError {
    ghost use Rattle.ped_path.specs.declared.parse.PedTextError.TheVariants as E;

    ghost from_gives = { λ _ e. e ≡ E.Memory };

    fn from(_: Memory) -> Self {
        PedTextError::Memory
    }
}

/// Parses a pedigree: 1 to 512 ranks in decimal without needless zeros, joined by full stops.
pub fn parse_pedigree(alloc: Global, text: &str) -> Result<Pedigree, PedTextError>
    ensures ok { IfOk result (λ j. (text.now ≡ ped_text j) × (length j ≤ 512)) }
    ensures err { IfErr result (λ e. IsRefused text.now e) }
{
    if text.is_empty() {
        return Err(PedTextError::Empty);
    }
    let mut path = Ped::root(alloc)?;
    let mut rest = text.as_bytes();
    let mut at = 0;
    for _count in 0..MOST_RANKS {
        let (rank, after) = read_rank(rest, at)?;
        let end = at + (rest.len() - after.len()) as u32;
        if after.is_empty() {
            return Ok(Pedigree { path, rank });
        }
        if after[0] != b'.' {
            return Err(PedTextError::BadByte(end));
        }
        path = path.child(alloc, rank)?;
        rest = &after[1..];
        at = end + 1;
    }
    Err(PedTextError::TooLong)
}

// Reads the rank at the start of `rest`, which begins at the offset `at`, and returns what follows it.
fn read_rank(rest: &[u8], at: u32) -> Result<(u64, &[u8]), PedTextError>
    ensures ok { IfOk result (λ r. IsRankThen rest.now r.0 r.1.now) }
    ensures err { IfErr result (λ e. IsRankFault rest.now at e) }
{
    let (digits, after) = rest.split_at(digits_len(rest));
    if digits.is_empty() {
        return Err(PedTextError::BadByte(at));
    }
    if digits.len() > 1 && digits[0] == b'0' {
        return Err(PedTextError::Zeros(at));
    }
    match rank_of(digits) {
        Some(rank) => Ok((rank, after)),
        None => Err(PedTextError::TooBig(at)),
    }
}

// How many digits the text begins with.
fn digits_len(text: &[u8]) -> usize
    ensures value { result ≡ prefix_len is_ascii_digit text.now }
    ensures within { result ≤ length text.now }
{
    text.iter().take_while(|byte| byte.is_ascii_digit()).count()
}

// The number that these digits write, if it is a rank.
fn rank_of(digits: &[u8]) -> Option<u64>
    requires { AllDigits 10 digits.now }
    ensures { SomeIff result (digits_value 10 digits.now < 2 ^ 32) (digits_value 10 digits.now) }
{
    let mut value = 0;
    for &digit in digits {
        value = value * 10 + (digit - b'0') as u64;
        if value > MOST_RANK {
            return None;
        }
    }
    Some(value)
}
