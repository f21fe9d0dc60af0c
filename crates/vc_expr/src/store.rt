//! A store of expressions: its nodes, and how one is put in.
ghost use Rattle.vc_expr.specs.Facts.{HasRootLetters, IsStore};
ghost use Rattle.vc_terms.specs.Forms.{EverywhereIn};
ghost use Rattle.vc_terms.specs.Terms.{terms_of};

use crate::expr::Expr;
use crate::facts::Facts;
use crate::fault::ExprFault;
use crate::stored::{Stored, equal_nodes_are_told};
use indexmap::IndexMap;
use std::alloc::{AllocError, Global};
use std::marker::Model;
use vc_label::LabelSet;
use vc_ring::Semiring;

/// A store of weighted expressions over the labels of a set, which only grows.
///
/// An expression has a name, and each tree has exactly one: parts are shared, and equality of trees
/// is equality of names. A node is an operation on earlier names and is found by it, and the facts
/// that calls ask for stand beside it, so that no call but `tree` walks a tree. Contracts see a
/// store as the list of the trees of its names; each call keeps these as they are, also where it
/// refuses in the middle, and may put others behind them.
#[derive(Drop)]
pub struct Exprs<L: LabelSet, S: Semiring> {
    alloc: Global,
    nodes: IndexMap<Stored<L::Label, S::Value>, Facts<S::Value>>,
}

impl<L: LabelSet, S: Semiring> Model for Exprs<L, S> {
    ghost use Rattle.std.specs.Prelude.{List};
    ghost use Rattle.std.specs.Coded.{coded_list};
    ghost use Rattle.vc_terms.specs.Terms.{Term};
    ghost use Rattle.vc_terms.specs.Codes.{term_code};
    ghost use Rattle.vc_expr.specs.Entries.{rows_in, facts_in};
    ghost use Rattle.vc_expr.specs.Facts.{AreNodes};
    ghost use Rattle.vc_expr.specs.Rows.{trees};

    ghost Value = { List (Term S.Value) };

    ghost coded = { coded_list (term_code S.Value.code) };

    ghost view = { λ s. trees (rows_in L.parts s.nodes.entries) };

    ghost invariant = { λ s. AreNodes S.set S.Value.eq L.SINGLE (rows_in L.parts s.nodes.entries)
        (facts_in s.nodes.entries) };
}

impl<L: LabelSet, S: Semiring> Exprs<L, S> {
    ghost use Rattle.std.specs.Prelude.{◌≡◌, ◌<◌, ◌↔◌, length, [], IsTrue, Ok};
    ghost use Rattle.vc_expr.specs.Answers.{IsMade};
    ghost use Rattle.vc_expr.specs.Facts.{facts_of, HasRootLetters, IsStoredRoot};
    ghost use Rattle.vc_expr.specs.Names.{Has, tree_of, Grows};
    ghost use Rattle.vc_expr.specs.Nodes.{row_of};
    ghost use Rattle.vc_expr.specs.Rows.{HasPartsBelow, tree_of_row};

    /// A store without names. It takes no memory.
    pub fn new(alloc: Global) -> Exprs<L, S>
        ensures { result ≡ [] }
    {
        Exprs {
            alloc,
            nodes: IndexMap::new(alloc),
        }
    }

    /// Whether a name is of this store.
    pub fn has(&self, e: Expr) -> bool
        ensures { IsTrue result ↔ Has self.now e }
    {
        e.at < self.nodes.len()
    }

    /// Where memory comes from.
    pub(crate) fn alloc(&self) -> Global {
        self.alloc
    }

    /// The node of a name.
    pub(crate) fn stored(&self, e: Expr) -> &Stored<L::Label, S::Value>
        requires { Has self.now e }
        ensures parts { HasPartsBelow e.at (row_of L.parts result.now) }
        ensures tree { tree_of self.now e ≡ tree_of_row self.now (row_of L.parts result.now) }
    {
        self.nodes.get_index(e.at).unwrap().0
    }

    /// What is kept of the tree of a name.
    pub(crate) fn facts(&self, e: Expr) -> Facts<S::Value>
        requires { Has self.now e }
        ensures { result ≡ facts_of S.set (tree_of self.now e) }
    {
        *self.nodes.get_index(e.at).unwrap().1
    }

    /// The name of a node. One that is new goes behind the others.
    pub(crate) fn put(
        &mut self,
        node: Stored<L::Label, S::Value>,
        facts: Facts<S::Value>,
    ) -> Result<Expr, ExprFault<S::Value>>
        requires parts { HasPartsBelow (length self.old) (row_of L.parts node) }
        requires facts { facts ≡ facts_of S.set (tree_of_row self.old (row_of L.parts node)) }
        requires root { IsStoredRoot S.set S.Value.eq (tree_of_row self.old (row_of L.parts node)) }
        requires letters { HasRootLetters L.SINGLE (tree_of_row self.old (row_of L.parts node)) }
        ensures answer { IsMade self.new (Ok (tree_of_row self.old (row_of L.parts node))) result }
        ensures grows { Grows self.old self.new }
    {
        equal_nodes_are_told::<L, S>();
        match self.nodes.insert_full(node, facts) {
            Ok((at, _)) => return Ok(Expr { at }),
            Err(_) => return Err(ExprFault::Memory(AllocError)),
        }
    }
}

/// No tree stands twice in a store, each is as the operations build it, each star in it is defined,
/// and conjunctions and shuffles stand over single letters.
pub(crate) fn stores_hold<L: LabelSet, S: Semiring>(store: &Exprs<L, S>)
    ensures store { IsStore S.set S.Value.eq store.now }
    ensures letters { EverywhereIn (HasRootLetters L.SINGLE) (terms_of store.now) }
{
    let _ = store.nodes.len();
}
