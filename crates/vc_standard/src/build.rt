//! The structure of an expression.
ghost use Rattle.std.specs.Prelude.{◌≡◌, ◌<◌, All, IfErr, IfOk, IsTrue, length, slice_index_or};
ghost use Rattle.vc_expr.specs.Names.{Has, tree_of, trees_of, sum_at, product_at};
ghost use Rattle.vc_standard.specs.Named.{NamesMore};
ghost use Rattle.vc_standard.specs.Refusals.{IsFault};
ghost use Rattle.vc_standard.specs.Shapes.{shape_of};
ghost use Rattle.vc_standard.specs.Steps.{IsStep};
ghost use Rattle.vc_standard.specs.Structures.{standard_of};
ghost use Rattle.vc_terms.specs.Terms.{Both, Shuffle, Star, Weight, constant_of};

use crate::conjoined::conjoined_shape;
use crate::looped::looped_shape;
use crate::product::{finish_chain, no_factors, with_factor};
use crate::shapes::{Shape, bare_shape, beside_shape, labelled_shape, weighted_shape};
use crate::shuffled::shuffled_shape;
use std::alloc::Global;
use vc_expr::{Expr, Exprs, Node, stores_are_valid};
use vc_label::LabelSet;
use vc_ring::{MakeFault, Semiring};

/// The structure of an expression, from those of its parts.
#[cycle(build)]
pub(crate) fn build<L: LabelSet, S: Semiring>(
    alloc: Global,
    exprs: &Exprs<L, S>,
    e: Expr,
) -> Result<Shape<L, S>, MakeFault<S::Value>>
    requires { Has exprs.now e }
    ensures shape { IfOk result (λ s. shape_of L.parts s ≡ standard_of S.set S.Value.eq (tree_of
        exprs.now e)) }
    ensures fault { IfErr result (λ f. IsFault S.set (IsStep S.set S.Value.eq (tree_of exprs.now e))
        (NamesMore S.set S.Value.eq 4000000 (tree_of exprs.now e)) f) }
{
    stores_are_valid(exprs);
    match exprs.node(e) {
        Node::Zero => return Ok(bare_shape(alloc, S::zero())),
        Node::One => return Ok(bare_shape(alloc, S::one())),
        Node::Atom(label) => return labelled_shape::<L, S>(alloc, label),
        Node::Sum(parts) => return build_sum(alloc, exprs, parts),
        Node::Product(parts) => return build_product(alloc, exprs, parts),
        Node::Star(part) => return build_star(alloc, exprs, part),
        Node::Weight(k, part) => return build_weight(alloc, exprs, k, part),
        Node::Both(a, b) => return build_both(alloc, exprs, a, b),
        Node::Shuffle(a, b) => return build_shuffle(alloc, exprs, a, b),
    }
}

/// The part at a place.
fn part_at(parts: &[Expr], i: usize) -> Expr
    requires { i < length parts.now }
    ensures { result ≡ slice_index_or parts.now i result }
{
    parts[i]
}

#[cycle(build)]
#[tactic(auto, using(crate::proofs::TreeLaws::part_here, crate::proofs::TreeLaws::part_smaller))]
fn build_sum<L: LabelSet, S: Semiring>(
    alloc: Global,
    exprs: &Exprs<L, S>,
    parts: &[Expr],
) -> Result<Shape<L, S>, MakeFault<S::Value>>
    requires { All (Has exprs.now) parts.now }
    ensures shape { IfOk result (λ s. shape_of L.parts s ≡ standard_of S.set S.Value.eq (sum_at
        exprs.now parts.now)) }
    ensures fault { IfErr result (λ f. IsFault S.set (IsStep S.set S.Value.eq (sum_at exprs.now
        parts.now)) (NamesMore S.set S.Value.eq 4000000 (sum_at exprs.now parts.now)) f) }
{
    let mut all = bare_shape(alloc, S::zero());
    for i in 0..parts.len() {
        let part = part_at(parts, i);
        let next = build(alloc, exprs, part)?;
        all = beside_shape::<L, S>(alloc, all, next)?;
    }
    Ok(all)
}

#[cycle(build)]
#[tactic(auto, using(crate::proofs::TreeLaws::part_here, crate::proofs::TreeLaws::part_smaller))]
fn build_product<L: LabelSet, S: Semiring>(
    alloc: Global,
    exprs: &Exprs<L, S>,
    parts: &[Expr],
) -> Result<Shape<L, S>, MakeFault<S::Value>>
    requires { All (Has exprs.now) parts.now }
    ensures shape { IfOk result (λ s. shape_of L.parts s ≡ standard_of S.set S.Value.eq (product_at
        exprs.now parts.now)) }
    ensures fault { IfErr result (λ f. IsFault S.set (IsStep S.set S.Value.eq (product_at exprs.now
        parts.now)) (NamesMore S.set S.Value.eq 4000000 (product_at exprs.now parts.now)) f) }
{
    let mut chain = no_factors(alloc);
    for i in 0..parts.len() {
        let part = part_at(parts, i);
        let next = build(alloc, exprs, part)?;
        chain = with_factor::<L, S>(alloc, chain, next)?;
    }
    let whole = finish_chain::<L, S>(chain)?;
    Ok(whole)
}

#[cycle(build)]
fn build_star<L: LabelSet, S: Semiring>(
    alloc: Global,
    exprs: &Exprs<L, S>,
    part: Expr,
) -> Result<Shape<L, S>, MakeFault<S::Value>>
    requires part { Has exprs.now part }
    requires defined { IsTrue (S.set.has_star (constant_of S.set (tree_of exprs.now part))) }
    ensures shape { IfOk result (λ s. shape_of L.parts s ≡ standard_of S.set S.Value.eq (Star
        (tree_of exprs.now part))) }
    ensures fault { IfErr result (λ f. IsFault S.set (IsStep S.set S.Value.eq (Star (tree_of
        exprs.now part))) (NamesMore S.set S.Value.eq 4000000 (Star (tree_of exprs.now part))) f) }
{
    let inner = build(alloc, exprs, part)?;
    let star = looped_shape::<L, S>(alloc, inner)?;
    Ok(star)
}

#[cycle(build)]
fn build_weight<L: LabelSet, S: Semiring>(
    alloc: Global,
    exprs: &Exprs<L, S>,
    k: S::Value,
    part: Expr,
) -> Result<Shape<L, S>, MakeFault<S::Value>>
    requires part { Has exprs.now part }
    requires weight { IsTrue (S.set.in_range k) }
    ensures shape { IfOk result (λ s. shape_of L.parts s ≡ standard_of S.set S.Value.eq (Weight k
        (tree_of exprs.now part))) }
    ensures fault { IfErr result (λ f. IsFault S.set (IsStep S.set S.Value.eq (Weight k (tree_of
        exprs.now part))) (NamesMore S.set S.Value.eq 4000000 (Weight k (tree_of exprs.now part)))
        f) }
{
    let inner = build(alloc, exprs, part)?;
    let multiple = weighted_shape::<L, S>(alloc, k, inner)?;
    Ok(multiple)
}

#[cycle(build)]
fn build_both<L: LabelSet, S: Semiring>(
    alloc: Global,
    exprs: &Exprs<L, S>,
    a: Expr,
    b: Expr,
) -> Result<Shape<L, S>, MakeFault<S::Value>>
    requires first { Has exprs.now a }
    requires second { Has exprs.now b }
    ensures shape { IfOk result (λ s. shape_of L.parts s ≡ standard_of S.set S.Value.eq (Both
        (tree_of exprs.now a) (tree_of exprs.now b))) }
    ensures fault { IfErr result (λ f. IsFault S.set (IsStep S.set S.Value.eq (Both (tree_of
        exprs.now a) (tree_of exprs.now b))) (NamesMore S.set S.Value.eq 4000000 (Both (tree_of
        exprs.now a) (tree_of exprs.now b))) f) }
{
    let first = build(alloc, exprs, a)?;
    let second = build(alloc, exprs, b)?;
    let pairs = conjoined_shape::<L, S>(alloc, &first, &second)?;
    Ok(pairs)
}

#[cycle(build)]
fn build_shuffle<L: LabelSet, S: Semiring>(
    alloc: Global,
    exprs: &Exprs<L, S>,
    a: Expr,
    b: Expr,
) -> Result<Shape<L, S>, MakeFault<S::Value>>
    requires first { Has exprs.now a }
    requires second { Has exprs.now b }
    ensures shape { IfOk result (λ s. shape_of L.parts s ≡ standard_of S.set S.Value.eq (Shuffle
        (tree_of exprs.now a) (tree_of exprs.now b))) }
    ensures fault { IfErr result (λ f. IsFault S.set (IsStep S.set S.Value.eq (Shuffle (tree_of
        exprs.now a) (tree_of exprs.now b))) (NamesMore S.set S.Value.eq 4000000 (Shuffle (tree_of
        exprs.now a) (tree_of exprs.now b))) f) }
{
    let first = build(alloc, exprs, a)?;
    let second = build(alloc, exprs, b)?;
    let pairs = shuffled_shape::<L, S>(alloc, &first, &second)?;
    Ok(pairs)
}
