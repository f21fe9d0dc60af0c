ghost use Rattle.std.specs.Prelude.{◌≡◌, ◌<◌, ◌≤◌, length};
ghost use Rattle.std.specs.Option.{option_copied};
ghost use Rattle.vc_lines.specs.Contexts.{IsContextOf, before, after_one, begins_comment, begins_quote, after_front, context_in_line, quoted, value_text};
ghost use Rattle.vc_lines.specs.Heads.{head_line};
ghost use Rattle.vc_lines.specs.Lines.{lines_of};

use crate::fault::HeadFault;
use crate::head::{Head, head_of, is_blank_line};
use crate::law::context_lines_have_one_text;
use vc_context::{AnyContext, read_context};
use vc_text::{after_blanks, is_escaped};

/// The text after a front that it begins with.
fn after_front<'t>(front: &[u8], text: &'t [u8]) -> Option<&'t [u8]>
    ensures { option_copied result ≡ after_front front.now text.now }
{
    text.strip_prefix(front)
}

fn begins_quote(text: &[u8]) -> bool
    ensures { result ≡ begins_quote text.now }
{
    match text {
        [first, ..] => *first == b'"',
        [] => false,
    }
}

fn begins_comment(text: &[u8]) -> bool
    ensures { result ≡ begins_comment text.now }
{
    match text {
        [] => false,
        [first] => *first == b'#',
        [first, second, ..] => *first == b'#' || (*first == b'/' && *second == b'/'),
    }
}

/// The text after its first letter or byte, where a letter may be escaped.
fn after_one(text: &[u8]) -> &[u8]
    ensures value { result.now ≡ after_one text.now }
    ensures shorter { 0 < length text.now → length result.now < length text.now }
{
    match text {
        [] => text,
        [_] => &text[1..],
        [first, second, rest @ ..] => {
            if *first == b'\\' && is_escaped(*second) {
                rest
            } else {
                &text[1..]
            }
        }
    }
}

/// How many bytes stand before the first double quote outside of escaped letters.
fn before_quote(text: &[u8]) -> usize
    ensures value { result ≡ before begins_quote text.now }
    ensures bound { result ≤ length text.now }
{
    let mut rest = text;
    while !rest.is_empty() && !begins_quote(rest) {
        rest = after_one(rest);
    }
    text.len() - rest.len()
}

/// How many bytes stand before the first comment outside of escaped letters.
fn before_comment(text: &[u8]) -> usize
    ensures value { result ≡ before begins_comment text.now }
    ensures bound { result ≤ length text.now }
{
    let mut rest = text;
    while !rest.is_empty() && !begins_comment(rest) {
        rest = after_one(rest);
    }
    text.len() - rest.len()
}

/// The text in double quotes, after the first of them.
fn quoted(text: &[u8]) -> Option<&[u8]>
    ensures { option_copied result ≡ quoted text.now }
{
    let end = before_quote(text);
    if end < text.len() && is_blank_line(&text[end + 1..]) {
        Some(&text[..end])
    } else {
        None
    }
}

/// What stands after `=`.
fn value_text(text: &[u8]) -> Option<&[u8]>
    ensures { option_copied result ≡ value_text text.now }
{
    match text {
        [b'"', inner @ ..] => quoted(inner),
        _ => Some(&text[..before_comment(text)]),
    }
}

/// The context text of a context line.
fn context_in_line(line: &[u8]) -> Option<&[u8]>
    ensures { option_copied result ≡ context_in_line line.now }
{
    let rest = after_front(b"context", after_blanks(line))?;
    let rest = after_front(b"=", after_blanks(rest))?;
    value_text(after_blanks(rest))
}

/// The context of a file, by the first of its lines that is not blank. It takes no memory.
///
/// `Syntax` comes exactly where that line is no context line, with its number, and where all lines are blank, with the number
/// of the last one.
pub fn daut_context(bytes: &[u8]) -> Result<AnyContext, HeadFault>
    ensures { IsContextOf (length (lines_of bytes.now)) (head_line 1 (lines_of bytes.now)) result }
{
    context_lines_have_one_text();
    let (number, line) = match head_of(bytes) {
        Head::Blank(line) => return Err(HeadFault::Syntax { line }),
        Head::Line(number, line, _) => (number, line),
    };
    let Some(text) = context_in_line(line) else {
        return Err(HeadFault::Syntax { line: number });
    };
    match read_context(text) {
        Ok(context) => Ok(context),
        Err(_) => Err(HeadFault::Syntax { line: number }),
    }
}
