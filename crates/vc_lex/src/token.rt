/// What a text is: it decides which tokens there are.
#[derive(Clone, Copy, Debug, PartialEq, Eq)]
pub enum Mode {
    /// The text of an expression.
    Expression,
    /// A line of a file, or the text of a word; it may end with a comment.
    Line,
}

/// A byte, no blank, at which no token begins.
#[derive(Clone, Copy, Debug, PartialEq, Eq)]
pub struct BadByte {
    /// The place of the byte in the source.
    pub at: usize,
}

/// A token: its kind and its text, which is the slice of the source at its place.
#[derive(Clone, Copy, Debug)]
pub struct Token<'s> {
    pub kind: TokenKind,
    pub text: &'s [u8],
    /// The place of its first byte in the source.
    pub at: usize,
}

/// The kinds of tokens. Letters are plain or escaped.
#[derive(Clone, Copy, Debug, PartialEq, Eq)]
pub enum TokenKind {
    /// `\z`, in expressions.
    Zero,
    /// `\e`.
    One,
    /// One letter, in expressions.
    Letter,
    /// One or more letters, as many as follow, in lines.
    Run,
    /// Any number of letters in single quotes.
    Quoted,
    /// Items in brackets, after an optional `^`: letters and ranges of letters.
    Class,
    /// One or more bytes other than `<`, `>` and line feed, between `<` and `>`.
    Weight,
    /// `*`, in expressions.
    Star,
    /// `&`, in expressions.
    And,
    /// `:`, in expressions.
    Shuffle,
    /// `+`, in expressions.
    Plus,
    /// `(`, in expressions.
    Left,
    /// `)`, in expressions.
    Right,
    /// A vertical bar.
    Bar,
    /// `->`, in lines.
    Arrow,
    /// `,`, in lines.
    Comma,
    /// `$`, in lines.
    Dollar,
    /// `=`, in lines.
    Equals,
    /// Bytes from 0x20 to 0x7E in double quotes, in lines; `"` and `\` have a backslash before them.
    Name,
}
