ghost use Rattle.std.specs.Prelude.{◌≡◌};
ghost use Rattle.vc_lines.specs.Heads.{IsHead, is_blank_line};
ghost use Rattle.vc_lines.specs.Lines.{lines_of};

use crate::lines::cut_line;
use vc_lex::{Lexer, Mode};

/// The first line of a file that is not blank, with its number, and the text of the lines after it.
#[derive(Clone, Copy)]
pub enum Head<'t> {
    /// All lines are blank, and so many they are.
    Blank(u64),
    /// This line, with this text after it.
    Line(u64, &'t [u8], &'t [u8]),
}

/// Whether nothing but blanks stand there, or blanks and a comment.
pub fn is_blank_line(line: &[u8]) -> bool
    ensures { result ≡ is_blank_line line.now }
{
    let mut lexer = Lexer::new(line, Mode::Line);
    match lexer.next() {
        None => true,
        Some(_) => false,
    }
}

/// The first line that is not blank.
pub fn head_of(bytes: &[u8]) -> Head<'_>
    ensures { IsHead (lines_of bytes.now) result }
{
    let _length = bytes.len();
    let mut number = 1;
    let mut rest = bytes;
    loop {
        let (line, after) = cut_line(rest);
        if !is_blank_line(line) {
            return Head::Line(number, line, after);
        }
        if after.is_empty() {
            return Head::Blank(number);
        }
        rest = after;
        number += 1;
    }
}
