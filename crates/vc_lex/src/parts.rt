ghost use Rattle.std.specs.Prelude.{◌≡◌, map};
ghost use Rattle.vc_lex.specs.Parts.{are_parts, class_body, is_bar_kind, is_class, is_part_kind};
ghost use Rattle.vc_lex.specs.Views.{seen};

use crate::token::{Token, TokenKind};
use vc_text::inside;

/// Whether tokens of this kind are parts of labels: letters, runs, letters in quotes, and `\e`.
pub fn is_part(kind: TokenKind) -> bool
    ensures { result ≡ is_part_kind kind }
{
    matches!(
        kind,
        TokenKind::Letter | TokenKind::Run | TokenKind::Quoted | TokenKind::One
    )
}

fn is_bar(kind: TokenKind) -> bool
    ensures { result ≡ is_bar_kind kind }
{
    matches!(kind, TokenKind::Bar)
}

/// Whether the tokens are one or more parts with bars between them.
pub fn are_parts(label: &[Token<'_>]) -> bool
    ensures { result ≡ are_parts (map seen label.now) }
{
    let mut rest = label;
    while let [part, bar, after @ ..] = rest {
        if !is_part(part.kind) || !is_bar(bar.kind) {
            return false;
        }
        rest = after;
    }
    match rest {
        [part] => is_part(part.kind),
        _ => false,
    }
}

/// Whether the label is a class.
pub fn is_class(label: &[Token<'_>]) -> bool
    ensures { result ≡ is_class (map seen label.now) }
{
    match label {
        [class] => matches!(class.kind, TokenKind::Class),
        _ => false,
    }
}

/// What stands in the brackets of a class.
pub fn class_body<'t>(label: &[Token<'t>]) -> &'t [u8]
    ensures { result.now ≡ class_body (map seen label.now) }
{
    match label {
        [class, ..] => inside(class.text),
        [] => &[],
    }
}
