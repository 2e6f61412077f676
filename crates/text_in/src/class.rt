//! Classes of bytes, and where one of a class stands first or last.

ghost use Rattle.std.specs.Prelude.{◌≡◌, ◌≤◌, length};
ghost use Rattle.std.specs.List.{position_or_len, before_first};
ghost use Rattle.text_in.specs.Bytes.{is_name_start, is_name_byte};
ghost use Rattle.text_in.specs.Cuts.{from_first, up_to_last};
ghost use Rattle.text_in.specs.Classes.{is_of};

/// A class of bytes.
#[derive(Clone, Copy, Debug)]
pub enum Class {
    /// The byte that ends a line.
    LineFeed,
    /// `#`, which begins a comment.
    NumberSign,
    /// A space or a tab.
    Blank,
    /// No blank.
    Solid,
    /// No space.
    NoSpace,
    /// A space, a tab, a return or a line feed.
    Gap,
    /// No gap.
    NoGap,
    /// `*`.
    Star,
    Comma,
    /// `(`.
    Open,
    /// No letter, digit or underscore.
    EndsName,
}

impl Class {
    fn has(self, byte: u8) -> bool
        ensures { result ≡ is_of self byte }
    {
        match self {
            Class::LineFeed => byte == b'\n',
            Class::NumberSign => byte == b'#',
            Class::Blank => byte == b' ' || byte == b'\t',
            Class::Solid => !(byte == b' ' || byte == b'\t'),
            Class::NoSpace => byte != b' ',
            Class::Gap => matches!(byte, b' ' | b'\t' | b'\r' | b'\n'),
            Class::NoGap => !matches!(byte, b' ' | b'\t' | b'\r' | b'\n'),
            Class::Star => byte == b'*',
            Class::Comma => byte == b',',
            Class::Open => byte == b'(',
            Class::EndsName => !is_name_byte(byte),
        }
    }

    /// The place of the first byte of the class, or the length where there is none.
    fn first_in(self, text: &[u8]) -> usize
        ensures value { result ≡ position_or_len (is_of self) text.now }
        ensures within { result ≤ length text.now }
    {
        for (i, byte) in text.iter().enumerate() {
            if self.has(*byte) {
                return i;
            }
        }
        text.len()
    }

    /// What stands before the first byte of the class, and the text from there on.
    pub fn split(self, text: &[u8]) -> (&[u8], &[u8])
        ensures before { result.0.now ≡ before_first (is_of self) text.now }
        ensures from { result.1.now ≡ from_first (is_of self) text.now }
    {
        text.split_at(self.first_in(text))
    }

    /// What stands before the first byte of the class.
    pub fn before(self, text: &[u8]) -> &[u8]
        ensures { result.now ≡ before_first (is_of self) text.now }
    {
        self.split(text).0
    }

    /// The text from the first byte of the class on.
    pub fn from(self, text: &[u8]) -> &[u8]
        ensures { result.now ≡ from_first (is_of self) text.now }
    {
        self.split(text).1
    }

    /// The text up to its last byte of the class.
    pub fn up_to_last(self, text: &[u8]) -> &[u8]
        ensures { result.now ≡ up_to_last (is_of self) text.now }
    {
        let mut len = text.len();
        while len > 0 {
            if self.has(text[len - 1]) {
                return &text[..len];
            }
            len -= 1;
        }
        &[]
    }
}

/// Whether the byte may begin a name: a letter or an underscore.
pub fn is_name_start(byte: u8) -> bool
    ensures { result ≡ is_name_start byte }
{
    byte.is_ascii_alphabetic() || byte == b'_'
}

/// Whether the byte may stand in a name: a letter, an underscore or a decimal digit.
pub fn is_name_byte(byte: u8) -> bool
    ensures { result ≡ is_name_byte byte }
{
    is_name_start(byte) || byte.is_ascii_digit()
}
