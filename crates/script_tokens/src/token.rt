// What tokens are.

ghost use Rattle.std.specs.Prelude.{◌≡◌, ◌≤◌, length};

/// A token's kind. `End` is the end of the text.
#[derive(Clone, Copy, Debug, PartialEq, Eq)]
pub enum TokenKind {
    Name,
    Keyword,
    Number,
    Symbol,
    End,
}

/// A token: its text is `bytes[start..end]`. At the end of the text `start` and `end` are its length.
#[derive(Clone, Copy, Debug, PartialEq, Eq)]
pub struct Token {
    pub kind: TokenKind,
    pub start: u32,
    pub end: u32,
}

/// Which name, number, keyword or symbol a token is.
#[derive(Clone, Copy, Debug, PartialEq, Eq)]
pub enum Word {
    Name,
    Number,
    Fn,
    Id,
    Let,
    Spawn,
    Call,
    Sync,
    Print,
    If,
    Else,
    While,
    Pfor,
    In,
    Into,
    Draw,
    New,
    Return,
    Same,
    Older,
    /// `(`
    Open,
    /// `)`
    Close,
    /// `{`
    OpenBlock,
    /// `}`
    CloseBlock,
    /// `[`
    OpenItem,
    /// `]`
    CloseItem,
    /// `,`
    Comma,
    /// `;`
    Semicolon,
    /// `=`
    Assign,
    /// `+`
    Plus,
    /// `-`
    Minus,
    /// `*`
    Times,
    /// `/`
    Over,
    /// `%`
    Modulo,
    /// `==`
    Eq,
    /// `!=`
    Ne,
    /// `<`
    Lt,
    /// `<=`
    Le,
    /// `>`
    Gt,
    /// `>=`
    Ge,
    /// `->`
    Arrow,
    /// `..`
    Range,
    /// `scope`, a keyword of version 2 only.
    Scope,
}

impl Word {
    ghost use Rattle.script_tokens.specs.Word.{kind_of};

    /// The kind of token: `Name` or `Number`, else `Keyword` or `Symbol`, and never `End`.
    pub fn kind(self) -> TokenKind
        ensures { result ≡ kind_of self }
    {
        match self {
            Word::Name => TokenKind::Name,
            Word::Number => TokenKind::Number,
            Word::Fn
            | Word::Id
            | Word::Let
            | Word::Spawn
            | Word::Call
            | Word::Sync
            | Word::Print
            | Word::If
            | Word::Else
            | Word::While
            | Word::Pfor
            | Word::In
            | Word::Into
            | Word::Draw
            | Word::New
            | Word::Return
            | Word::Same
            | Word::Older
            | Word::Scope => TokenKind::Keyword,
            _ => TokenKind::Symbol,
        }
    }
}

/// A token with its word: its text is `bytes[start..end]`.
#[derive(Clone, Copy, Debug, PartialEq, Eq)]
pub struct Lexeme {
    pub word: Word,
    pub start: u32,
    pub end: u32,
}

impl Lexeme {
    ghost use Rattle.script_tokens.specs.Lexing.{text_of};

    /// The lexeme's text, where `bytes` is the whole one. The lexemes of `a..b` have the texts `a`, `..` and `b`.
    pub fn text<'a>(&self, bytes: &'a [u8]) -> &'a [u8]
        requires order { self.now.start ≤ self.now.end }
        requires within { self.now.end ≤ length bytes.now }
        ensures { result.now ≡ text_of bytes.now self.now }
    {
        &bytes[self.start as usize..self.end as usize]
    }
}
