//! The steps that make an expression.

use vc_lex::Token;

/// A step of making an expression: the parts come before the whole, from left to right.
#[derive(Clone, Copy, Debug)]
pub(crate) enum Step<'t> {
    /// `\z`.
    Zero,
    /// A label with this part.
    Part(Token<'t>),
    /// One more part of the label.
    More(Token<'t>),
    /// A class.
    Class(Token<'t>),
    /// Parentheses.
    Group,
    Star,
    /// A weight and its operand.
    Weight(Token<'t>),
    /// The product of so many.
    Product(usize),
    And,
    Shuffle,
    /// The sum of so many.
    Sum(usize),
}
