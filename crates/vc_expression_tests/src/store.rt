//! Tests of `vc_expr`: one name for equal trees, and refusals that name their step.

ghost use Rattle.std.specs.Prelude.{◌↔◌, All, IsTrue};
ghost use Rattle.vc_expr.specs.Names.{Has};

use std::alloc::Global;
use std::test::Fail;
use vc_atoms::Letters;
use vc_basic::Z;
use vc_expr::{Expr, ExprFault, Exprs, Node};
use vc_label::{Alphabet, LabelSet, Word};
use vc_ring::{Overflow, Semiring};

type Store = Exprs<Letters, Z>;

/// Whether each of the names is of the store.
fn has_all(store: &Store, parts: &[Expr]) -> bool
    ensures { IsTrue result ↔ All (Has store.now) parts.now }
{
    parts.iter().all(|part| store.has(*part))
}

/// The name that a call gave.
fn made(answer: Result<Expr, ExprFault<i128>>) -> Result<Expr, Fail> {
    match answer {
        Ok(name) => Ok(name),
        Err(_) => Err(Fail::new("an expression is refused")),
    }
}

/// The letter a, or b.
fn letter(alloc: Global, store: &mut Store, text: &str) -> Result<Expr, Fail> {
    let labels = Letters::new(Alphabet::new().with(b'a').with(b'b'));
    let letters = if text == "a" { b"a" } else { b"b" };
    let label = labels.label(alloc, Word::one(letters))?;
    made(store.atom(label))
}

fn sum(store: &mut Store, parts: &[Expr]) -> Result<Expr, Fail> {
    if !has_all(store, parts) {
        return Err(Fail::new("not all are names"));
    }
    made(store.sum(parts))
}

fn product(store: &mut Store, parts: &[Expr]) -> Result<Result<Expr, ExprFault<i128>>, Fail> {
    if !has_all(store, parts) {
        return Err(Fail::new("not all are names"));
    }
    Ok(store.product(parts))
}

fn star(store: &mut Store, part: Expr) -> Result<Result<Expr, ExprFault<i128>>, Fail> {
    if !store.has(part) {
        return Err(Fail::new("not a name"));
    }
    Ok(store.star(part))
}

/// The weight in front of an expression, and what is behind it. It is generic since a node at a
/// label with a ghost field is not covered by the borrow checker yet.
fn weighted<L: LabelSet, S: Semiring>(store: &Exprs<L, S>, e: Expr) -> Option<(S::Value, Expr)>
    requires { Has store.now e }
{
    match store.node(e) {
        Node::Weight(weight, body) => Some((weight, body)),
        _ => None,
    }
}

#[test]
fn equal_trees_have_one_name(rt: HostRuntime) -> Result<(), Fail> {
    let mut store = Store::new(rt.alloc());
    let a = letter(rt.alloc(), &mut store, "a")?;
    let b = letter(rt.alloc(), &mut store, "b")?;
    let first = sum(&mut store, &[a, b])?;
    let zero = made(store.zero())?;
    let inner = sum(&mut store, &[a])?;
    let second = sum(&mut store, &[zero, inner, b])?;
    assert_eq!(rt; first, second);
    assert_eq!(rt; inner, a);
    assert!(rt; store.has(first) && store.has(b));
    assert_eq!(rt; (store.letters(first), store.letters(b)), (2, 1));
    Ok(())
}

#[test]
fn refused_calls_name_their_step(rt: HostRuntime) -> Result<(), Fail> {
    let mut store = Store::new(rt.alloc());
    let one = made(store.one())?;
    let invalid = ExprFault::InvalidStar {
        operand: one,
        constant: 1,
    };
    assert_eq!(rt; star(&mut store, one)?, Err(invalid));
    let a = letter(rt.alloc(), &mut store, "a")?;
    assert!(rt; store.has(a));
    let large = 1 << 100;
    let heavy = made(store.weight(large, a))?;
    let step = Overflow::Mul {
        left: large,
        right: large,
    };
    assert_eq!(rt;
        product(&mut store, &[heavy, heavy])?,
        Err(ExprFault::Overflow(step))
    );
    assert!(rt; store.has(heavy));
    assert_eq!(rt; weighted(&store, heavy), Some((large, a)));
    Ok(())
}
