// The bytes of names.

ghost use Rattle.std.specs.Prelude.{◌≡◌, ◌≤◌, length, take};
ghost use Rattle.std.specs.Int.{from_le_bytes, to_le_bytes, w64};
ghost use Rattle.std.specs.Str.{bytes_eq};

use std::marker::Model;

/// The most bytes of a name.
pub const LONGEST_NAME: usize = 32;

// How many of them are compared as one number.
const COMPARED_FIRST: u8 = 8;

/// A name's bytes, stored inline, so that a copy allocates nothing and comparing two names mostly compares two numbers. Contracts
/// see the list of the bytes.
#[derive(Drop)]
pub struct NameText {
    // The bytes, filled up with zeros.
    room: [u8; 32],
    length: u8,
}

impl Model for NameText {
    ghost use Rattle.std.specs.Prelude.{ℕ, List};
    ghost use Rattle.std.specs.Coded.{coded_list, coded_ℕ};
    ghost use Rattle.script_grammar.specs.Names.{IsNameText, name_bytes};

    ghost Value = { List ℕ };

    ghost coded = { coded_list coded_ℕ };

    ghost view = { λ n. name_bytes n.room n.length };

    ghost invariant = { λ n. IsNameText n.room n.length };
}

impl NameText {
    /// A copy of these bytes.
    pub fn of(bytes: &[u8]) -> NameText
        requires { length bytes.now ≤ 32 }
        ensures { result ≡ bytes.now }
    {
        let mut room = [0; LONGEST_NAME];
        for i in 0..bytes.len() {
            room[i] = bytes[i];
        }
        NameText {
            room,
            length: bytes.len() as u8,
        }
    }

    /// The same bytes.
    #[inline(always)]
    pub fn copy(&self) -> NameText
        ensures { result ≡ self.now }
    {
        NameText {
            room: self.room,
            length: self.length,
        }
    }

    /// The bytes in order.
    #[inline(always)]
    pub fn as_slice(&self) -> &[u8]
        ensures { result.now ≡ self.now }
    {
        &self.room[..self.length as usize]
    }

    /// Whether both have the same bytes.
    #[inline(always)]
    pub fn same(&self, other: &NameText) -> bool
        ensures { result ≡ bytes_eq self.now other.now }
    {
        if front_number(&self.room) != front_number(&other.room) || self.length != other.length {
            return false;
        }
        if self.length <= COMPARED_FIRST {
            return true;
        }
        same_bytes(self.as_slice(), other.as_slice())
    }
}

// Whether both are the same, byte by byte. It calls nothing, so that a search needs no frame.
#[inline(always)]
fn same_bytes(left: &[u8], right: &[u8]) -> bool
    ensures { result ≡ bytes_eq left.now right.now }
{
    if left.len() != right.len() {
        return false;
    }
    for i in 0..left.len() {
        if left[i] != right[i] {
            return false;
        }
    }
    true
}

// The first bytes as a number.
#[inline(always)]
fn front_number(room: &[u8; 32]) -> u64
    ensures number { result ≡ from_le_bytes w64 (take 8 room.now) }
    ensures bytes { take 8 room.now ≡ to_le_bytes w64 result }
{
    u64::from_le_bytes([
        room[0], room[1], room[2], room[3], room[4], room[5], room[6], room[7],
    ])
}
