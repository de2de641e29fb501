// Versions of the language.

ghost use Rattle.std.specs.Prelude.{◌≡◌};
ghost use Rattle.script_tokens.specs.Version.{begins_at, version_of};

/// A version of the script language.
///
/// A text of version 2 begins with the line `version 2`: these nine bytes and a line feed. Every other text is of version 1, and
/// all of it is the script.
#[derive(Clone, Copy, Debug, PartialEq, Eq)]
pub enum Version {
    /// The first version, which has no scopes. Its texts have no version line.
    One,
    /// The version with scopes.
    Two,
}

impl Version {
    /// The version of a text.
    pub fn of(bytes: &[u8]) -> Version
        ensures { result ≡ version_of bytes.now }
    {
        if bytes.starts_with(b"version 2\n") {
            Version::Two
        } else {
            Version::One
        }
    }

    /// The offset at which the script begins in a text of this version, after the version line.
    pub fn begins_at(self) -> u32
        ensures { result ≡ begins_at self }
    {
        match self {
            Version::One => 0,
            Version::Two => 10,
        }
    }
}
