//! What an automaton is explored from.
use crate::exploration::Exploration;
use std::hash::Hash;
use vc_label::LabelSet;
use vc_ring::{MakeFault, Overflow, Semiring};

/// Members that lead to members by labels and weights, and that begin and end with weights.
pub trait Moves<L: LabelSet, S: Semiring> {
    ghost use Rattle.std.specs.Prelude.{◌≡◌, ◌<◌, ◌↔◌, List, IfErr, IfOk, IsTrue, OnOk, false, length, map};
    ghost use Rattle.vc_label.specs.declared.tape_set.TapeSet.{TapeSet};
    ghost use Rattle.vc_model.specs.Items.{Item, item_key};
    ghost use Rattle.vc_model.specs.Lists.{In, NoRepeat};
    ghost use Rattle.vc_ring.specs.Steps.{fits};
    ghost use Rattle.vc_ring.specs.declared.faults.Overflow.{Overflow as Step};
    ghost use Rattle.vc_search.specs.Courses.{IsStopped, NoStep, begun_all, led_all, targets};

    /// What a state of the automaton stands for.
    type Key: Copy + Eq + Hash;

    /// The members that the search begins with, in order.
    ghost first: { Self → List Self.Key };

    /// What a member leads to, in the order in which it is found.
    ghost items: { Self → Self.Key → List (Item S.Value Self.Key) };

    /// The initial weight of a member.
    ghost initial: { Self → Self.Key → S.Value };

    /// The final weight of a member.
    ghost last: { Self → Self.Key → S.Value };

    /// A step that makes a weight of a member or of one of its items.
    ghost is_step: { Self → Self.Key → Step S.Value → Type 0 };

    /// What can be a member.
    ghost is_member: { Self → Self.Key → Type 0 };

    /// The sets that the labels are over.
    ghost is_over: { Self → List TapeSet → Type 0 };

    /// Stands past the end of the members.
    ghost past: { Self.Key };

    /// Finds the first members.
    fn begin(&self, into: &mut Exploration<L, S, Self::Key>) -> Result<(), MakeFault<S::Value>>
        ensures members { (k : Self.Key) → In k (first self.now) → is_member self.now k }
        ensures ok { OnOk result (into.new ≡ begun_all Self.Key.eq into.old (first self.now)) }
        ensures fault { IfErr result (IsStopped Self.Key.eq NoStep into.old (first self.now) 0) };

    /// Finds what the member with the number `from` leads to, and adds the transitions to it. It
    /// stops at the first step that does not fit, and where there is no room.
    fn follow(
        &self,
        key: Self::Key,
        from: u32,
        into: &mut Exploration<L, S, Self::Key>,
    ) -> Result<(), MakeFault<S::Value>>
        requires member { is_member self.now key }
        requires from { from < length into.old.members }
        requires over { is_over self.now into.old.sets }
        ensures members { (k : Self.Key) → In k (targets (items self.now key))
            → is_member self.now k }
        ensures once { NoRepeat (map item_key (items self.now key)) }
        ensures ok { OnOk result (into.new
            ≡ led_all Self.Key.eq from into.old (items self.now key)) }
        ensures fault { IfErr result (IsStopped Self.Key.eq
            (λ o. is_step self.now key o × (fits S.set o ≡ false)) into.old
            (targets (items self.now key)) (length (items self.now key))) };

    /// The initial and the final weight of a member.
    fn weights(&self, key: Self::Key) -> Result<(S::Value, S::Value), Overflow<S::Value>>
        requires { is_member self.now key }
        ensures initial { IfOk result (λ w. w.0 ≡ initial self.now key) }
        ensures last { IfOk result (λ w. w.1 ≡ last self.now key) }
        ensures initial_in { IfOk result (λ w. IsTrue (S.set.in_range w.0)) }
        ensures last_in { IfOk result (λ w. IsTrue (S.set.in_range w.1)) }
        ensures step { IfErr result (λ o. is_step self.now key o × (fits S.set o ≡ false)) };

    /// Two members compare equal exactly where they are the same.
    ghost same: { (a b : Self.Key) → IsTrue (Self.Key.eq a b) ↔ (a ≡ b) };
}
