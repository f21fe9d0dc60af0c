ghost use Rattle.std.specs.Prelude.{◌≡◌, IfOk, map};
ghost use Rattle.vc_lex.specs.Marks.{IsCut};
ghost use Rattle.vc_lex.specs.Views.{AreFit, seen};

use crate::laws::tokens_follow_the_grammar;
use crate::lexer::Lexer;
use crate::token::{BadByte, Mode, Token};
use std::alloc::AllocError;

/// Cuts a text into its tokens, in place of those that are there. It answers the first byte at which no token begins, if
/// there is one; then only the tokens before that byte stand there.
#[inline(never)]
pub fn cut_tokens<'t>(
    text: &'t [u8],
    mode: Mode,
    tokens: &mut Vec<Token<'t>>,
) -> Result<Option<BadByte>, AllocError>
    ensures fit { AreFit tokens.new.items }
    ensures cut { IfOk result (IsCut mode text.now (map seen tokens.new.items)) }
{
    tokens_follow_the_grammar();
    let _length = text.len();
    tokens.clear();
    let mut lexer = Lexer::new(text, mode);
    while let Some(next) = lexer.next() {
        match next {
            Ok(token) => tokens.push(token)?,
            Err(bad) => return Ok(Some(bad)),
        }
    }
    Ok(None)
}
