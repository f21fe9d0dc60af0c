ghost use Rattle.std.specs.Prelude.{◌≡◌, ◌≤◌, ◌+◌, ◌^◌, ◌<◌, length, Some, None};
ghost use Rattle.vc_lex.specs.Scans.{positive, class_body, enclosed, begins_with, common_token, expression_token, line_token, token_at};

use crate::fronts::{
    items_in_front, letter_width, letters_in_front, name_in_front, weight_in_front,
};
use crate::token::{Mode, TokenKind};

/// What begins a text.
#[derive(Clone, Copy)]
pub enum Scan {
    /// Nothing, or a comment.
    End,
    /// No token.
    Bad,
    /// A token of this kind, which has this many bytes.
    Found(TokenKind, usize),
}

fn positive(width: usize) -> Option<usize>
    ensures { result ≡ positive width }
{
    if width == 0 { None } else { Some(width) }
}

// How many bytes the body of a class has that begins the text.
fn class_body(text: &[u8]) -> Option<usize>
    ensures { result ≡ class_body text.now }
{
    match text {
        [] => None,
        [b'^', items @ ..] => Some(1 + items_in_front(items)),
        _ => positive(items_in_front(text)),
    }
}

// The token of a body of this width, where the closing byte stands behind it.
fn enclosed(kind: TokenKind, body: Option<usize>, close: u8, text: &[u8]) -> Scan
    ensures { result ≡ enclosed kind body close text.now }
{
    match body {
        Some(width) if width < text.len() && text[width] == close => Scan::Found(kind, width + 2),
        _ => Scan::Bad,
    }
}

// A token that both modes have.
fn common_token(first: u8, rest: &[u8]) -> Scan
    ensures { result ≡ common_token first rest.now }
{
    match first {
        b'|' => Scan::Found(TokenKind::Bar, 1),
        b'\'' => enclosed(TokenKind::Quoted, Some(letters_in_front(rest)), b'\'', rest),
        b'[' => enclosed(TokenKind::Class, class_body(rest), b']', rest),
        b'<' => enclosed(
            TokenKind::Weight,
            positive(weight_in_front(rest)),
            b'>',
            rest,
        ),
        b'\\' if begins_with(b'e', rest) => Scan::Found(TokenKind::One, 2),
        _ => Scan::Bad,
    }
}

// A token of expressions that is no letter.
fn expression_token(first: u8, rest: &[u8]) -> Scan
    ensures { result ≡ expression_token first rest.now }
{
    match first {
        b'*' => Scan::Found(TokenKind::Star, 1),
        b'&' => Scan::Found(TokenKind::And, 1),
        b':' => Scan::Found(TokenKind::Shuffle, 1),
        b'+' => Scan::Found(TokenKind::Plus, 1),
        b'(' => Scan::Found(TokenKind::Left, 1),
        b')' => Scan::Found(TokenKind::Right, 1),
        b'\\' if begins_with(b'z', rest) => Scan::Found(TokenKind::Zero, 2),
        _ => common_token(first, rest),
    }
}

// A token of lines that is no run, or a comment.
fn line_token(first: u8, rest: &[u8]) -> Scan
    ensures { result ≡ line_token first rest.now }
{
    match first {
        b',' => Scan::Found(TokenKind::Comma, 1),
        b'$' => Scan::Found(TokenKind::Dollar, 1),
        b'=' => Scan::Found(TokenKind::Equals, 1),
        b'"' => enclosed(TokenKind::Name, Some(name_in_front(rest)), b'"', rest),
        b'-' if begins_with(b'>', rest) => Scan::Found(TokenKind::Arrow, 2),
        b'#' => Scan::End,
        b'/' if begins_with(b'/', rest) => Scan::End,
        _ => common_token(first, rest),
    }
}

// Whether the text begins with this byte.
fn begins_with(byte: u8, text: &[u8]) -> bool
    ensures { result ≡ begins_with byte text.now }
{
    match text {
        [x, ..] => *x == byte,
        [] => false,
    }
}

/// What begins the text. A letter or a run comes first, since no other token begins with a letter.
#[inline(always)]
pub fn token_at(mode: Mode, text: &[u8]) -> Scan
    ensures { result ≡ token_at mode text.now }
{
    let [first, rest @ ..] = text else {
        return Scan::End;
    };
    match (mode, letter_width(text)) {
        (Mode::Expression, Some(width)) => Scan::Found(TokenKind::Letter, width),
        (Mode::Expression, None) => expression_token(*first, rest),
        (Mode::Line, Some(_)) => Scan::Found(TokenKind::Run, letters_in_front(text)),
        (Mode::Line, None) => line_token(*first, rest),
    }
}
