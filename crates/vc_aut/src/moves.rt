ghost use Rattle.std.specs.Prelude.{◌≡◌, ◌≤◌, All, IfOk, IsTrue, OnOk, OnErr, length, map};
ghost use Rattle.vc_aut.specs.Drafts.{without_zeros};
ghost use Rattle.vc_aut.specs.Refusals.{IsAnswer, transition_refusal};
ghost use Rattle.vc_aut.specs.Stored.{entry_transition, transition_of};
ghost use Rattle.vc_aut.specs.Sums.{insert_transition};

use crate::transition::Transition;
use std::alloc::{AllocError, Global};
use std::collections::BTreeMap;
use std::collections::btree_map::Entry;
use vc_label::LabelSet;
use vc_ring::{Limit, MakeFault, Measure, Semiring};

pub(crate) const MOST_TRANSITIONS: usize = 4_000_000;

/// The transitions that are being added up, by source, label and target.
pub(crate) type Moves<L, S> = BTreeMap<(u32, <L as LabelSet>::Label, u32), <S as Semiring>::Value>;

/// Adds a weight at a triple.
pub(crate) fn add<L: LabelSet, S: Semiring>(
    moves: &mut Moves<L, S>,
    from: u32,
    label: L::Label,
    to: u32,
    weight: S::Value,
) -> Result<(), MakeFault<S::Value>>
    requires weights { All (λ e. IsTrue (S.set.in_range e.1)) moves.old.entries }
    requires weight { IsTrue (S.set.in_range weight) }
    ensures ok { OnOk result (map (entry_transition L.parts) moves.new.entries ≡ insert_transition S.set (map (entry_transition L.parts) moves.old.entries) (record { from = from; label = L.parts label; to = to; weight = weight })) }
    ensures err { OnErr result (moves.new.entries ≡ moves.old.entries) }
    ensures answer { IsAnswer (transition_refusal S.set (map (entry_transition L.parts) moves.old.entries) (record { from = from; label = L.parts label; to = to; weight = weight })) result }
{
    if moves.len() >= MOST_TRANSITIONS {
        return add_to_most::<L, S>(moves, from, label, to, weight);
    }
    match moves.entry((from, label, to)) {
        Ok(Entry::Occupied(mut entry)) => {
            let sum = match S::add(*entry.get(), weight) {
                Ok(sum) => sum,
                Err(overflow) => return Err(MakeFault::Overflow(overflow)),
            };
            entry.insert(sum);
            return Ok(());
        }
        Ok(Entry::Vacant(entry)) => {
            entry.insert(weight);
            return Ok(());
        }
        Err(_) => return Err(MakeFault::Memory(AllocError)),
    }
}

/// Adds a weight at a triple where the most transitions stand.
fn add_to_most<L: LabelSet, S: Semiring>(
    moves: &mut Moves<L, S>,
    from: u32,
    label: L::Label,
    to: u32,
    weight: S::Value,
) -> Result<(), MakeFault<S::Value>>
    requires most { 4000000 ≤ length moves.old.entries }
    requires weights { All (λ e. IsTrue (S.set.in_range e.1)) moves.old.entries }
    requires weight { IsTrue (S.set.in_range weight) }
    ensures ok { OnOk result (map (entry_transition L.parts) moves.new.entries ≡ insert_transition S.set (map (entry_transition L.parts) moves.old.entries) (record { from = from; label = L.parts label; to = to; weight = weight })) }
    ensures err { OnErr result (moves.new.entries ≡ moves.old.entries) }
    ensures answer { IsAnswer (transition_refusal S.set (map (entry_transition L.parts) moves.old.entries) (record { from = from; label = L.parts label; to = to; weight = weight })) result }
{
    let key = (from, label, to);
    let sum = match moves.get(&key) {
        Some(old) => match S::add(*old, weight) {
            Ok(sum) => sum,
            Err(overflow) => return Err(MakeFault::Overflow(overflow)),
        },
        None => {
            return Err(MakeFault::Limit(Limit {
                what: Measure::Transitions,
                most: MOST_TRANSITIONS as u64,
            }));
        }
    };
    let Ok(_) = moves.insert(key, sum) else {
        return Err(MakeFault::Memory(AllocError));
    };
    Ok(())
}

/// The transitions whose weight is not zero, in order.
pub(crate) fn finish<L: LabelSet, S: Semiring>(
    alloc: Global,
    moves: Moves<L, S>,
) -> Result<Vec<Transition<L, S>>, AllocError>
    ensures { IfOk result (λ v. map (transition_of L.parts) v.items ≡ without_zeros S.set S.Value.eq (map (entry_transition L.parts) moves.entries)) }
{
    let mut transitions = Vec::with_capacity(alloc, moves.len())?;
    for ((from, label, to), weight) in moves {
        if weight != S::zero() {
            transitions.push(Transition {
                from,
                label,
                to,
                weight,
            })?;
        }
    }
    Ok(transitions)
}
