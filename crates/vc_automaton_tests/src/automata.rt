//! Tests of `vc_aut`: builders, automata from lists, proper automata.

ghost use Rattle.std.specs.Prelude.{◌≡◌, true, false, refl, [], ◌∷◌, ◌||◌, ◌&&◌, ◌==◌, None, Some, length, if◌then◌else◌};
ghost use Rattle.std.proofs.Common.{arith};
ghost use Rattle.std.proofs.lemmas.List.Elements.{All-cons, All-nil};
ghost use Rattle.vc_ring.specs.Texts.{IsWeightByte};
ghost use Rattle.std.proofs.Math.Bool.{or_assoc, or_comm, or-false, and_assoc, and_comm, and-true, and-false, and-or_distrib_left};

use std::alloc::{AllocError, Global};
use std::test::Fail;
use vc_aut::{Automaton, Builder, Transition};
use vc_label::{Alphabet, LabelFault, LabelSet, TapeKind, TapeSet, Word, WordBuf};
use vc_ring::{Limit, MakeFault, Measure, NumberFault, Overflow, Semiring, StarFault};

/// The truth values.
#[derive(Clone, Copy)]
struct Truth;

impl Semiring for Truth {
    type Value = bool;

    const ABSORBS: bool = true;

    ghost ABSORBS = { true };

    ghost set = { record { zero = false; one = true; plus = λ a b. a || b; times = λ a b. a && b; has_star = λ a. true; star = λ a. true; in_range = λ a. true; fits_plus = λ a b. true; fits_times = λ a b. true; fits_star = λ a. true } };

    ghost spelled = { λ text. if length text == 0 then None else Some (length text == 1) };

    ghost numbers_fit = { λ text. true };

    ghost canonical = { λ a. if a then 0x31 ∷ [] else 0x30 ∷ 0x30 ∷ [] };

    ghost laws = { record { plus_assoc = or_assoc; plus_comm = or_comm; plus_zero = or-false; times_assoc = and_assoc; times_comm = and_comm; times_one = and-true; times_zero = and-false; times_plus = and-or_distrib_left; one_is_not_zero = λ h. Prim.cc; star_zero = refl; star_is = λ a h. refl } };

    ghost ranges = { record { zero_in = refl; one_in = refl; plus_in = λ a b g h k. refl; times_in = λ a b g h k. refl; star_in = λ a g h k. refl; plus_zero_fits = λ a h. refl; zero_plus_fits = λ a h. refl; times_zero_fits = λ a h. refl; zero_times_fits = λ a h. refl; times_one_fits = λ a h. refl; one_times_fits = λ a h. refl; star_zero_fits = refl } };

    ghost same = { λ a b. Prim.grind arith };

    ghost absorbs = { ((λ h a. refl), (λ h. refl)) };

    ghost texts = { record { not_empty = refl; read_in = λ text a h k. refl; written = elim [ true ↦ λ h. refl | false ↦ λ h. refl ]; written_fits = λ a h. refl; bytes = elim [ true ↦ All-cons IsWeightByte 0x31 [] (record { low = Prim.omega arith; high = Prim.omega arith; not_less = λ e. Prim.omega arith; not_greater = λ e. Prim.omega arith }) (All-nil IsWeightByte) | false ↦ All-cons IsWeightByte 0x30 (0x30 ∷ []) (record { low = Prim.omega arith; high = Prim.omega arith; not_less = λ e. Prim.omega arith; not_greater = λ e. Prim.omega arith }) (All-cons IsWeightByte 0x30 [] (record { low = Prim.omega arith; high = Prim.omega arith; not_less = λ e. Prim.omega arith; not_greater = λ e. Prim.omega arith }) (All-nil IsWeightByte)) ] } };

    fn zero() -> bool {
        false
    }

    fn one() -> bool {
        true
    }

    fn add(left: bool, right: bool) -> Result<bool, Overflow<bool>> {
        Ok(left | right)
    }

    fn mul(left: bool, right: bool) -> Result<bool, Overflow<bool>> {
        Ok(left & right)
    }

    fn star(_of: bool) -> Result<bool, StarFault<bool>> {
        Ok(true)
    }

    fn read(text: &[u8]) -> Result<bool, NumberFault> {
        match text.len() {
            0 => Err(NumberFault::Bad),
            length => Ok(length == 1),
        }
    }

    fn write(_value: bool, _into: &mut String) -> Result<(), AllocError> {
        Err(AllocError)
    }
}

/// The label set whose one label has no letter.
#[derive(Clone, Copy)]
struct Silent {
    set: TapeSet,
}

impl LabelSet for Silent {
    type Label = ();

    const SINGLE: bool = false;

    ghost SINGLE = { false };

    ghost sets = { λ s. s.set ∷ [] };

    ghost parts = { λ l. [] ∷ [] };

    ghost letters = { λ l. refl };

    ghost same_parts = { λ a b. ((λ h. refl), (λ h. refl)) };

    ghost ordered = { λ a b. refl };

    ghost few_tapes = { λ s. (Prim.omega arith, Prim.omega arith) };

    ghost few_parts = { λ l. (Prim.omega arith, Prim.omega arith) };

    ghost single_sets = { λ h s. Prim.cc };

    ghost single_parts = { λ h l. Prim.cc };

    fn tapes(&self) -> usize {
        1
    }

    fn tape(&self, _i: usize) -> TapeSet {
        self.set
    }

    fn is_empty(_label: &()) -> bool {
        true
    }

    fn part(_label: &(), _tape: usize) -> &[u8] {
        &[]
    }

    fn cut<'w>(_label: &(), word: Word<'w>) -> Option<Word<'w>> {
        Some(Word::one(word.tape(0)))
    }

    fn join(_label: &(), _onto: &mut WordBuf) -> Result<(), AllocError> {
        Err(AllocError)
    }

    fn label(&self, _alloc: Global, _word: Word<'_>) -> Result<(), LabelFault> {
        Err(LabelFault::Memory(AllocError))
    }

    fn copy(_alloc: Global, _label: &()) -> Result<(), AllocError> {
        Ok(())
    }
}

#[test]
fn builder_counts_states_and_drops_zeros(rt: HostRuntime) -> Result<(), Fail> {
    let set = TapeSet {
        kind: TapeKind::Words,
        alphabet: Alphabet::new(),
    };
    let mut builder = Builder::<Silent, Truth>::new(rt.alloc(), Silent { set }, 2);
    let first = builder.add_state()?;
    let second = builder.add_state()?;
    assert_eq!(rt; (first, second), (0, 1));
    let most = Limit {
        what: Measure::States,
        most: 2,
    };
    assert_eq!(rt; builder.add_state(), Err(MakeFault::Limit(most)));
    builder.add_initial(first, true)?;
    builder.add_final(second, true)?;
    builder.add_transition(first, (), first, false)?;
    builder.add_transition(first, (), second, false)?;
    builder.add_transition(first, (), second, true)?;
    let aut = builder.finish()?;
    assert_eq!(rt; aut.states(), 2);
    assert_eq!(rt; aut.labels().tapes(), 1);
    assert_eq!(rt; (aut.initial_weight(0), aut.final_weight(0)), (true, false));
    assert_eq!(rt; (aut.initial_weight(1), aut.final_weight(1)), (false, true));
    let transitions = aut.transitions_from(0);
    assert_eq!(rt; transitions.len(), 1);
    assert_eq!(rt; (transitions[0].to, transitions[0].weight), (1, true));
    assert_eq!(rt; aut.transitions_from(1).len(), 0);
    Ok(())
}

/// One state with a transition to itself, which is dropped where its weight is zero.
fn with_loop(alloc: Global, weight: bool) -> Result<Automaton<Silent, Truth>, Fail> {
    let set = TapeSet {
        kind: TapeKind::Words,
        alphabet: Alphabet::new(),
    };
    let mut builder = Builder::<Silent, Truth>::new(alloc, Silent { set }, 1);
    let state = builder.add_state()?;
    builder.add_final(state, true)?;
    builder.add_transition(state, (), state, weight)?;
    let aut = builder.finish()?;
    Ok(aut)
}

#[test]
fn automaton_with_an_empty_label_is_handed_back(rt: HostRuntime) -> Result<(), Fail> {
    let aut = with_loop(rt.alloc(), true)?.into_proper().err();
    let aut = aut.ok_or("an empty label passed")?;
    assert_eq!(rt; aut.states(), 1);
    assert_eq!(rt; aut.final_weight(0), true);
    assert_eq!(rt; aut.transitions_from(0).len(), 1);
    let proper = with_loop(rt.alloc(), false)?.into_proper().ok();
    let proper = proper.ok_or("no label is empty")?;
    assert_eq!(rt; proper.automaton().states(), 1);
    assert_eq!(rt; proper.automaton().final_weight(0), true);
    assert_eq!(rt; proper.automaton().transitions_from(0).len(), 0);
    Ok(())
}

/// A transition that reads the label without letters.
fn silent_transition(from: u32, to: u32, weight: bool) -> Transition<Silent, Truth>
    ensures { result ≡ record { from = from; label = tt; to = to; weight = weight } }
{
    Transition {
        from,
        label: (),
        to,
        weight,
    }
}

#[test]
fn transitions_of_a_list_are_added_up(rt: HostRuntime) -> Result<(), Fail> {
    let set = TapeSet {
        kind: TapeKind::Words,
        alphabet: Alphabet::new(),
    };
    let mut initial = Vec::new(rt.alloc());
    initial.push(true)?;
    initial.push(false)?;
    let mut last = Vec::new(rt.alloc());
    last.push(false)?;
    last.push(true)?;
    let mut list = Vec::new(rt.alloc());
    list.push(silent_transition(1, 0, true))?;
    list.push(silent_transition(0, 1, true))?;
    list.push(silent_transition(0, 0, false))?;
    list.push(silent_transition(0, 1, false))?;
    let aut = Automaton::from_transitions(rt.alloc(), Silent { set }, initial, last, list)?;
    let rows = [(0, 1, true), (1, 0, true)];
    for (from, to, weight) in rows {
        let transitions = aut.transitions_from(from);
        assert_eq!(rt; transitions.len(), 1);
        assert_eq!(rt; (transitions[0].to, transitions[0].weight), (to, weight));
    }
    Ok(())
}
