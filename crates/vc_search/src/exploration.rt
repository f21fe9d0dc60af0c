//! Automata that are being explored.
ghost use Rattle.std.specs.Prelude.{◌≡◌, ◌++◌, ◌∷◌, [], OnErr, OnOk, map};
ghost use Rattle.vc_aut.specs.Stored.{transition_of};

use crate::search::{Search, SearchFault};
use std::alloc::{AllocError, Global};
use std::hash::Hash;
use std::marker::Model;
use vc_aut::Transition;
use vc_label::LabelSet;
use vc_ring::{Limit, MakeFault, Measure, Semiring};

/// How many transitions there may be.
const MOST_TRANSITIONS: usize = 4_000_000;

/// An automaton that is being explored: the members that are found, each with its number, and the
/// transitions between these numbers.
#[derive(Drop)]
pub struct Exploration<L: LabelSet, S: Semiring, K: Copy + Eq + Hash> {
    most: u64,
    labels: L,
    search: Search<K>,
    transitions: Vec<Transition<L, S>>,
}

impl<L: LabelSet, S: Semiring, K: Copy + Eq + Hash> Model for Exploration<L, S, K> {
    ghost use Rattle.std.specs.Prelude.{map};
    ghost use Rattle.vc_label.specs.contracts.tape_set.TapeSet.{the_row};
    ghost use Rattle.vc_search.specs.Courses.{Course, IsCourse, course_code};

    ghost Value = { Course S.Value K };

    ghost coded = { course_code the_row.coded S.Value.code K.code };

    ghost use Rattle.std.specs.Prelude.{◌≡◌};
    ghost use Rattle.vc_aut.specs.Stored.{transition_of};

    ghost view = { λ e. record { most = e.most; sets = L.sets e.labels; members = e.search.members; transitions = map (transition_of L.parts) e.transitions.items } };

    ghost invariant = { λ e. (e.most ≡ e.search.most) × IsCourse S.set (record { most = e.most; sets = L.sets e.labels; members = e.search.members; transitions = map (transition_of L.parts) e.transitions.items }) };
}

impl<L: LabelSet, S: Semiring, K: Copy + Eq + Hash> Exploration<L, S, K> {
    ghost use Rattle.std.specs.Prelude.{◌≡◌, ◌≤◌, ◌<◌, ◌∷◌, [], IfErr, IfOk, IsTrue, OnOk, false, length, map, slice_get};
    ghost use Rattle.vc_aut.specs.Stored.{transition_of};
    ghost use Rattle.vc_label.specs.Sets.{IsOverSets};
    ghost use Rattle.vc_model.specs.Words.{is_empty};
    ghost use Rattle.vc_search.specs.Courses.{IsStopped, IsCourse, NoStep, added, begun, empty_course, found_of, led};
    ghost use Rattle.vc_search.specs.Found.{number_of};

    /// An exploration without members, for at most so many. It takes no memory.
    pub(crate) fn new(alloc: Global, labels: L, most: u64) -> Exploration<L, S, K>
        requires { most ≤ 1000000 }
        ensures { result ≡ empty_course most (L.sets labels) }
    {
        Exploration {
            most,
            labels,
            search: Search::new(alloc, most),
            transitions: Vec::new(alloc),
        }
    }

    /// The member with this number, none where there is none.
    pub(crate) fn member(&self, number: usize) -> Option<K>
        ensures member { result ≡ slice_get self.now.members number }
        ensures few { length self.now.members ≤ self.now.most }
        ensures most { self.now.most ≤ 1000000 }
    {
        self.search.member(number).copied()
    }

    /// Finds a first member.
    pub fn begin(&mut self, key: K) -> Result<(), MakeFault<S::Value>>
        ensures ok { OnOk result (self.new ≡ begun K.eq self.old key) }
        ensures fault { IfErr result (IsStopped K.eq NoStep self.old (key ∷ []) 0) }
    {
        match self.find(key) {
            Ok(_) => return Ok(()),
            Err(fault) => return Err(fault),
        }
    }

    /// Finds what the member with the number `from` leads to by a label with a weight, and adds the
    /// transition to it.
    pub fn lead(
        &mut self,
        from: u32,
        label: L::Label,
        to: K,
        weight: S::Value,
    ) -> Result<(), MakeFault<S::Value>>
        requires from { from < length self.old.members }
        requires label { IsOverSets self.old.sets (L.parts label) }
        requires not_empty { is_empty (L.parts label) ≡ false }
        requires weight { IsTrue (S.set.in_range weight) }
        ensures ok { OnOk result (self.new ≡ led K.eq from self.old
            (record { label = L.parts label; weight = weight; to = to })) }
        ensures fault { IfErr result (IsStopped K.eq NoStep self.old (to ∷ []) 1) }
    {
        let number = match self.find(to) {
            Ok(number) => number,
            Err(fault) => return Err(fault),
        };
        match self.add(from, label, number, weight) {
            Ok(()) => return Ok(()),
            Err(fault) => return Err(fault),
        }
    }

    /// Adds a transition between two numbers.
    fn add(
        &mut self,
        from: u32,
        label: L::Label,
        to: u32,
        weight: S::Value,
    ) -> Result<(), MakeFault<S::Value>>
        requires from { from < length self.old.members }
        requires label { IsOverSets self.old.sets (L.parts label) }
        requires not_empty { is_empty (L.parts label) ≡ false }
        requires to { to < length self.old.members }
        requires weight { IsTrue (S.set.in_range weight) }
        ensures ok { OnOk result (self.new ≡ added self.old
            (record { from = from; label = L.parts label; to = to; weight = weight })) }
        ensures fault { IfErr result (IsStopped K.eq NoStep self.old [] 1) }
    {
        if self.transitions.len() >= MOST_TRANSITIONS {
            return Err(MakeFault::Limit(Limit {
                what: Measure::Transitions,
                most: MOST_TRANSITIONS as u64,
            }));
        }
        let transition = Transition {
            from,
            label,
            to,
            weight,
        };
        match append(&mut self.transitions, transition) {
            Ok(()) => return Ok(()),
            Err(fault) => return Err(MakeFault::Memory(fault)),
        }
    }

    /// The number of a member, which is found now where it is new.
    fn find(&mut self, key: K) -> Result<u32, MakeFault<S::Value>>
        ensures ok { OnOk result (self.new ≡ begun K.eq self.old key) }
        ensures number { IfOk result (λ n. n ≡ number_of K.eq key self.old.members) }
        ensures within { IfOk result (λ n. n < length self.new.members) }
        ensures fault { IfErr result (IsStopped K.eq NoStep self.old (key ∷ []) 0) }
    {
        match self.search.find(key) {
            Ok(number) => return Ok(number),
            Err(SearchFault::Full) => {
                return Err(MakeFault::Limit(Limit {
                    what: Measure::States,
                    most: self.most,
                }));
            }
            Err(SearchFault::Memory(fault)) => return Err(MakeFault::Memory(fault)),
        }
    }

    /// The members and the transitions.
    pub(crate) fn finish(self) -> (Search<K>, Vec<Transition<L, S>>)
        ensures search { result.0 ≡ found_of self }
        ensures transitions { map (transition_of L.parts) result.1.items ≡ self.transitions }
        ensures course { IsCourse S.set self }
    {
        let Exploration {
            most: _,
            labels: _,
            search,
            transitions,
        } = self;
        (search, transitions)
    }
}

/// Appends a transition.
fn append<L: LabelSet, S: Semiring>(
    transitions: &mut Vec<Transition<L, S>>,
    transition: Transition<L, S>,
) -> Result<(), AllocError>
    ensures ok { OnOk result (map (transition_of L.parts) transitions.new.items
        ≡ map (transition_of L.parts) transitions.old.items
        ++ transition_of L.parts transition ∷ []) }
    ensures err { OnErr result (map (transition_of L.parts) transitions.new.items
        ≡ map (transition_of L.parts) transitions.old.items) }
{
    match transitions.push(transition) {
        Ok(()) => return Ok(()),
        Err(_) => return Err(AllocError),
    }
}
