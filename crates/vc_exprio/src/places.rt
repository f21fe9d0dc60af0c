//! The places of the first tokens of some kinds.
ghost use Rattle.std.specs.Prelude.{◌≡◌, map};
ghost use Rattle.vc_exprio.specs.Places.{first_place, is_operator, is_operator_kind, is_weight_kind, is_unfit};
ghost use Rattle.vc_lex.specs.Views.{seen};

use vc_lex::{Token, TokenKind};
use vc_ring::{NumberFault, Semiring};
use vc_text::inside;

fn is_operator(kind: TokenKind) -> bool
    ensures { result ≡ is_operator_kind kind }
{
    matches!(kind, TokenKind::And | TokenKind::Shuffle)
}

/// The place of the first `&` or `:`.
#[tactic(auto, using(crate::proofs::FirstPlaces::next_place, crate::proofs::FirstPlaces::at_place, crate::proofs::FirstPlaces::no_place))]
pub(crate) fn first_operator(tokens: &[Token<'_>]) -> Option<usize>
    ensures { result ≡ first_place is_operator (map seen tokens.now) }
{
    for token in tokens {
        if is_operator(token.kind) {
            return Some(token.at);
        }
    }
    None
}

fn is_weight_kind(kind: TokenKind) -> bool
    ensures { result ≡ is_weight_kind kind }
{
    matches!(kind, TokenKind::Weight)
}

/// Whether the token is a weight of the weight set with a number past its range.
fn is_unfit<S: Semiring>(token: Token<'_>) -> bool
    ensures { result ≡ is_unfit S.spelled S.numbers_fit (seen token.entry) }
{
    is_weight_kind(token.kind) && matches!(S::read(inside(token.text)), Err(NumberFault::Overflow))
}

/// The place of the first weight with a number past its range.
#[tactic(auto, using(crate::proofs::FirstPlaces::next_place, crate::proofs::FirstPlaces::at_place, crate::proofs::FirstPlaces::no_place))]
pub(crate) fn first_unfit<S: Semiring>(tokens: &[Token<'_>]) -> Option<usize>
    ensures { result ≡ first_place (is_unfit S.spelled S.numbers_fit) (map seen tokens.now) }
{
    for token in tokens {
        if is_unfit::<S>(*token) {
            return Some(token.at);
        }
    }
    None
}
