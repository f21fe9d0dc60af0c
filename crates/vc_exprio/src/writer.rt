//! The canonical texts of expressions.
ghost use Rattle.std.specs.Prelude.{◌≡◌, ◌<◌, ◌≤◌, ◌+◌, ◌++◌, ◌∷◌, [], IsTrue, MatchOption, OnOk, OnErr, length, string_bytes};
ghost use Rattle.vc_expr.specs.Names.{Has, tree_of};
ghost use Rattle.vc_exprio.specs.Canonical.{expression_text, IsRootOver};
ghost use Rattle.vc_exprio.specs.Writing.{rank, operand_text, item_text, left, IsPending, ArePending, work, item_work, work_left};
ghost use Rattle.vc_terms.specs.Forms.{Everywhere};
ghost use Rattle.vc_text.specs.Growing.{IsFront};

use crate::form::{Form, form_of};
use crate::label_text::push_label;
use std::alloc::{AllocError, Global};
use vc_expr::{Expr, Exprs, Node, stores_are_valid};
use vc_label::{LabelSet, words_are_over_sets};
use vc_ring::Semiring;
use vc_text::{cut_back, push_byte, push_text};

/// What is still to be written.
#[derive(Clone, Copy)]
pub(crate) enum Pending<'e> {
    Byte(u8),
    /// An expression, in parentheses where its form is looser than this one.
    Operand(Form, Expr),
    /// Members of a sum, each with `+` before it.
    Members(&'e [Expr]),
    /// Factors of a product.
    Factors(&'e [Expr]),
}

/// Appends a weight in angle brackets.
#[tactic(auto, using(vc_text::specs::Fronts::front_twice))]
fn push_weight<S: Semiring>(weight: S::Value, into: &mut String) -> Result<(), AllocError>
    requires { IsTrue (S.set.in_range weight) }
    ensures ok { OnOk result (string_bytes into.new ≡ string_bytes into.old ++ 60 ∷ (S.canonical weight ++ 62 ∷ [])) }
    ensures front { IsFront (string_bytes into.old) (string_bytes into.new) }
{
    push_byte(b'<', into)?;
    S::write(weight, into)?;
    push_byte(b'>', into)
}

/// The first of some expressions, and the others.
fn first_of(exprs: &[Expr]) -> Option<(Expr, &[Expr])>
    ensures { MatchOption result (exprs.now ≡ []) (λ r. exprs.now ≡ r.0 ∷ r.1.now) }
{
    match exprs {
        [first, others @ ..] => Some((*first, others)),
        [] => None,
    }
}

/// Writes what an expression begins with, and puts what is still to be written.
fn write_node<'e, L: LabelSet, S: Semiring>(
    exprs: &'e Exprs<L, S>,
    labels: &L,
    pending: &mut Vec<Pending<'e>>,
    e: Expr,
    into: &mut String,
) -> Result<(), AllocError>
    requires has { Has exprs.now e }
    requires labels { Everywhere (IsRootOver (L.sets labels.now)) (tree_of exprs.now e) }
    requires pending { ArePending (L.sets labels.now) exprs.now pending.old.items }
    ensures text { OnOk result (string_bytes into.new ++ left S.canonical exprs.now pending.new.items
        ≡ string_bytes into.old ++ (expression_text S.canonical (tree_of exprs.now e) ++ left S.canonical exprs.now pending.old.items)) }
    ensures pending { OnOk result (ArePending (L.sets labels.now) exprs.now pending.new.items) }
    ensures work { OnOk result (work_left exprs.now pending.new.items + 2 ≤ work (tree_of exprs.now e) + work_left exprs.now pending.old.items) }
    ensures front { IsFront (string_bytes into.old) (string_bytes into.new) }
{
    stores_are_valid(exprs);
    match exprs.node(e) {
        Node::Zero => return push_text("\\z", into),
        Node::One => return push_text("\\e", into),
        Node::Atom(label) => {
            words_are_over_sets();
            return push_label(labels, label, into);
        }
        Node::Sum(members) => {
            let Some((first, others)) = first_of(members) else {
                return Ok(());
            };
            pending.push(Pending::Members(others))?;
            pending.push(Pending::Operand(Form::Sum, first))?;
            return Ok(());
        }
        Node::Product(factors) => {
            pending.push(Pending::Factors(factors))?;
            return Ok(());
        }
        Node::Star(operand) => {
            pending.push(Pending::Byte(b'*'))?;
            pending.push(Pending::Operand(Form::Postfixed, operand))?;
            return Ok(());
        }
        Node::Weight(weight, operand) => {
            push_weight::<S>(weight, into)?;
            pending.push(Pending::Operand(Form::Prefixed, operand))?;
            return Ok(());
        }
        Node::Both(first, second) => {
            pending.push(Pending::Operand(Form::Product, second))?;
            pending.push(Pending::Byte(b'&'))?;
            pending.push(Pending::Operand(Form::Conjunction, first))?;
            return Ok(());
        }
        Node::Shuffle(first, second) => {
            pending.push(Pending::Operand(Form::Conjunction, second))?;
            pending.push(Pending::Byte(b':'))?;
            pending.push(Pending::Operand(Form::Shuffle, first))?;
            return Ok(());
        }
    }
}

/// Writes what an operand begins with, where the forms from `least` on may stand without parentheses.
fn write_operand<'e, L: LabelSet, S: Semiring>(
    exprs: &'e Exprs<L, S>,
    labels: &L,
    pending: &mut Vec<Pending<'e>>,
    least: Form,
    e: Expr,
    into: &mut String,
) -> Result<(), AllocError>
    requires has { Has exprs.now e }
    requires labels { Everywhere (IsRootOver (L.sets labels.now)) (tree_of exprs.now e) }
    requires pending { ArePending (L.sets labels.now) exprs.now pending.old.items }
    ensures text { OnOk result (string_bytes into.new ++ left S.canonical exprs.now pending.new.items
        ≡ string_bytes into.old ++ (operand_text S.canonical (rank least) (tree_of exprs.now e) ++ left S.canonical exprs.now pending.old.items)) }
    ensures pending { OnOk result (ArePending (L.sets labels.now) exprs.now pending.new.items) }
    ensures work { OnOk result (work_left exprs.now pending.new.items < work (tree_of exprs.now e) + work_left exprs.now pending.old.items) }
    ensures front { IsFront (string_bytes into.old) (string_bytes into.new) }
{
    if form_of(exprs, e).rank() < least.rank() {
        push_byte(b'(', into)?;
        pending.push(Pending::Byte(b')'))?;
        return write_node(exprs, labels, pending, e, into);
    }
    write_node(exprs, labels, pending, e, into)
}

/// Writes what an item begins with.
fn write_item<'e, L: LabelSet, S: Semiring>(
    exprs: &'e Exprs<L, S>,
    labels: &L,
    pending: &mut Vec<Pending<'e>>,
    item: Pending<'e>,
    into: &mut String,
) -> Result<(), AllocError>
    requires item { IsPending (L.sets labels.now) exprs.now item }
    requires pending { ArePending (L.sets labels.now) exprs.now pending.old.items }
    ensures text { OnOk result (string_bytes into.new ++ left S.canonical exprs.now pending.new.items
        ≡ string_bytes into.old ++ (item_text S.canonical exprs.now item.entry ++ left S.canonical exprs.now pending.old.items)) }
    ensures pending { OnOk result (ArePending (L.sets labels.now) exprs.now pending.new.items) }
    ensures work { OnOk result (work_left exprs.now pending.new.items < item_work exprs.now item.entry + work_left exprs.now pending.old.items) }
    ensures front { IsFront (string_bytes into.old) (string_bytes into.new) }
{
    match item {
        Pending::Byte(byte) => return push_byte(byte, into),
        Pending::Operand(least, e) => {
            return write_operand(exprs, labels, pending, least, e, into);
        }
        Pending::Members(members) => {
            let Some((first, others)) = first_of(members) else {
                return Ok(());
            };
            push_byte(b'+', into)?;
            pending.push(Pending::Members(others))?;
            return write_node(exprs, labels, pending, first, into);
        }
        Pending::Factors(factors) => {
            let Some((first, others)) = first_of(factors) else {
                return Ok(());
            };
            pending.push(Pending::Factors(others))?;
            return write_operand(exprs, labels, pending, Form::Product, first, into);
        }
    }
}

/// Appends the text of an expression.
fn push_expr<L: LabelSet, S: Semiring>(
    alloc: Global,
    exprs: &Exprs<L, S>,
    labels: &L,
    e: Expr,
    into: &mut String,
) -> Result<(), AllocError>
    requires has { Has exprs.now e }
    requires labels { Everywhere (IsRootOver (L.sets labels.now)) (tree_of exprs.now e) }
    ensures ok { OnOk result (string_bytes into.new ≡ string_bytes into.old ++ expression_text S.canonical (tree_of exprs.now e)) }
    ensures front { IsFront (string_bytes into.old) (string_bytes into.new) }
{
    let mut pending = Vec::new(alloc);
    pending.push(Pending::Operand(Form::Sum, e))?;
    while let Some(item) = pending.pop() {
        write_item(exprs, labels, &mut pending, item, into)?;
    }
    Ok(())
}

/// Appends the canonical text of an expression: each node in the form of the grammar, without blanks, a weight in angle
/// brackets before its operand, and parentheses only around operands of a looser form than their place wants. It takes
/// memory for what is still to be written, and no recursion.
pub fn write_expr<L: LabelSet, S: Semiring>(
    alloc: Global,
    exprs: &Exprs<L, S>,
    labels: &L,
    e: Expr,
    into: &mut String,
) -> Result<(), AllocError>
    requires has { Has exprs.now e }
    requires labels { Everywhere (IsRootOver (L.sets labels.now)) (tree_of exprs.now e) }
    ensures ok { OnOk result (string_bytes into.new ≡ string_bytes into.old ++ expression_text S.canonical (tree_of exprs.now e)) }
    ensures err { OnErr result (string_bytes into.new ≡ string_bytes into.old) }
{
    let length = into.len();
    let written = push_expr(alloc, exprs, labels, e, into);
    if written.is_err() {
        cut_back(into, length);
    }
    written
}
