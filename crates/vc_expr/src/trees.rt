//! Expressions as trees.
ghost use Rattle.std.specs.Prelude.{◌≡◌, map};
ghost use Rattle.vc_terms.specs.Terms.{Sum, Product, terms_of};
ghost use Rattle.vc_series.specs.Trees.{term_of};

use crate::expr::Expr;
use crate::store::Exprs;
use crate::stored::Stored;
use std::alloc::AllocError;
use vc_label::LabelSet;
use vc_ring::Semiring;
use vc_series::Tree;

impl<L: LabelSet, S: Semiring> Exprs<L, S> {
    ghost use Rattle.std.specs.Prelude.{◌≡◌, ◌≤◌, ◌<◌, All, length, map, IfOk};
    ghost use Rattle.vc_expr.specs.Names.{Has, tree_of, trees_of};
    ghost use Rattle.vc_series.specs.Trees.{term_of};

    /// The tree of a name. It can be much larger than the store, since names share their parts. It
    /// refuses for memory alone.
    #[cycle(trees)]
    #[tactic(auto, using(crate::proofs::StoreLaws::below_all))]
    pub fn tree(&self, e: Expr) -> Result<Tree<L, S>, AllocError>
        requires { Has self.now e }
        ensures { IfOk result (λ t. term_of L.parts t ≡ tree_of self.now e) }
    {
        match self.stored(e) {
            Stored::Zero => Ok(Tree::Zero),
            Stored::One => Ok(Tree::One),
            Stored::Atom(label) => Ok(Tree::Atom(L::copy(self.alloc(), label)?)),
            Stored::Sum(parts) => Ok(sum_of_trees::<L, S>(self.trees(parts.as_slice(), e.at)?)),
            Stored::Product(parts) => {
                Ok(product_of_trees::<L, S>(self.trees(parts.as_slice(), e.at)?))
            }
            Stored::Star(part) => { Ok(Tree::Star(Box::new(self.alloc(), self.tree(*part)?)?)) }
            Stored::Weight(k, part) => {
                Ok(Tree::Weight(*k, Box::new(self.alloc(), self.tree(*part)?)?))
            }
            Stored::Both(a, b) => {
                let first = Box::new(self.alloc(), self.tree(*a)?)?;
                let second = Box::new(self.alloc(), self.tree(*b)?)?;
                Ok(Tree::Both(first, second))
            }
            Stored::Shuffle(a, b) => {
                let first = Box::new(self.alloc(), self.tree(*a)?)?;
                let second = Box::new(self.alloc(), self.tree(*b)?)?;
                Ok(Tree::Shuffle(first, second))
            }
        }
    }

    #[cycle(trees)]
    fn trees(&self, parts: &[Expr], end: usize) -> Result<Vec<Tree<L, S>>, AllocError>
        requires end { end ≤ length self.now }
        requires parts { All (λ f. f.at < end) parts.now }
        ensures { IfOk result (λ v. map (term_of L.parts) v.items ≡ trees_of self.now parts.now) }
    {
        let mut all = Vec::new(self.alloc());
        for part in parts {
            let one = self.tree(*part)?;
            all.push(one)?;
        }
        Ok(all)
    }
}

/// The sum of trees.
fn sum_of_trees<L: LabelSet, S: Semiring>(parts: Vec<Tree<L, S>>) -> Tree<L, S>
    ensures { term_of L.parts result ≡ Sum (terms_of (map (term_of L.parts) parts.items)) }
{
    Tree::Sum(parts)
}

/// The product of trees.
fn product_of_trees<L: LabelSet, S: Semiring>(parts: Vec<Tree<L, S>>) -> Tree<L, S>
    ensures { term_of L.parts result ≡ Product (terms_of (map (term_of L.parts) parts.items)) }
{
    Tree::Product(parts)
}
