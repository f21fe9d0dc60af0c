//! Texts of expressions and of lines, cut into tokens.
#![tactic(auto)]

mod cut;
mod fronts;
mod laws;
mod lexer;
mod parts;
mod scan;
mod token;

pub use cut::cut_tokens;
pub use laws::{texts_have_their_tokens, tokens_follow_the_grammar};
pub use lexer::Lexer;
pub use parts::{are_parts, class_body, is_class, is_part};
pub use token::{BadByte, Mode, Token, TokenKind};
pub use vc_text::{LetterAt, letter_at};
