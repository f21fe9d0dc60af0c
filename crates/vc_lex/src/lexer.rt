use crate::fronts::blanks_in_front;
use crate::scan::{Scan, token_at};
use crate::token::{BadByte, Mode, Token};
use std::marker::Model;

/// Cuts a text into tokens, from the left to the right. It takes no memory.
///
/// Blanks, which are spaces and tabs, stand between tokens. Contracts see the source, the mode, the place of the next
/// byte, and whether a byte was met at which no token begins.
#[derive(Drop)]
pub struct Lexer<'s> {
    source: &'s [u8],
    mode: Mode,
    at: usize,
    failed: bool,
}

impl<'s> Model for Lexer<'s> {
    ghost use Rattle.std.specs.Prelude.{◌≤◌, length};
    ghost use Rattle.vc_lex.specs.Lexers.{State};

    ghost Value = { State };

    ghost view = { λ l. record { source = l.source.now; mode = l.mode; place = l.at; failed = l.failed } };

    ghost invariant = { λ l. l.at ≤ length l.source.now };
}

impl<'s> Lexer<'s> {
    ghost use Rattle.std.specs.Prelude.{◌≡◌, IsTrue, IsNone, true, false};
    ghost use Rattle.vc_lex.specs.Lexers.{next_scan, IsStepBy};

    /// A lexer at the first byte of a text.
    pub fn new(source: &'s [u8], mode: Mode) -> Lexer<'s>
        ensures { result ≡ record { source = source.now; mode = mode; place = 0; failed = false } }
    {
        Lexer {
            source,
            mode,
            at: 0,
            failed: false,
        }
    }

    /// The next token, or the byte that is no blank at which none begins.
    ///
    /// It is None at the end of the source, at a comment in a line (`#` or `//` where a token would begin), and in each
    /// call after a bad byte.
    #[inline(always)]
    pub fn next(&mut self) -> Option<Result<Token<'s>, BadByte>>
        ensures step { self.old.failed ≡ false → IsStepBy (next_scan self.old) self.old result self.new }
        ensures stopped { self.old.failed ≡ true → IsNone result × (self.new ≡ self.old) }
    {
        if self.failed {
            return None;
        }
        self.at += blanks_in_front(&self.source[self.at..]);
        let rest = &self.source[self.at..];
        match token_at(self.mode, rest) {
            Scan::End => None,
            Scan::Bad => {
                self.failed = true;
                Some(Err(BadByte { at: self.at }))
            }
            Scan::Found(kind, width) => {
                let token = Token {
                    kind,
                    text: &rest[..width],
                    at: self.at,
                };
                self.at += width;
                Some(Ok(token))
            }
        }
    }
}
