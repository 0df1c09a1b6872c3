//! What is done at a node when the whole tree stands.

ghost use Rattle.std.specs.Prelude.{◌≡◌};
ghost use Rattle.sl_decode.specs.Outcomes.{Gives};
ghost use Rattle.sl_decode.specs.Finishing.{told, told_of};
ghost use Rattle.sl_decode_meaning.specs.Actions as spec;
ghost use Rattle.sl_decode_meaning.specs.Actions.{Own, at_values, own};
ghost use Rattle.sl_decode_meaning.specs.Outcomes.{in_turn};
ghost use Rattle.sl_decode_leaves.specs.Looks.{look_step};
ghost use Rattle.sl_decode_plan.specs.Steps.{late_step};
ghost use Rattle.sl_decode_plan.specs.Values.{site_of, value_in};

use crate::addresses::address_in;
use crate::decode::value_of;
use crate::outcomes::DecodeError;
use sl_decode_contexts::Commit;
use sl_decode_leaves::Look;
use sl_decode_meaning::Noted;
use sl_decode_plan::{Late, Scope, Steps, Value, look_up};
use sl_spec::Tables;

/// The look-ups of a node.
pub fn look_all(t: &Tables, scope: &Scope, looks: &[Look]) -> Result<(), DecodeError>
    ensures { (c : Own) → Gives (λ _. c) result
        (in_turn (look_step t.now (site_of scope.now)) looks.now c) }
{
    'looks: for index in 0..looks.len() {
        match look_up(t, scope, &looks[index]) {
            Ok(()) => {}
            Err(fault) => return Err(DecodeError::Fault(fault)),
        }
    }
    Ok(())
}

fn commit_of(t: &Tables, note: &Noted, address: i64) -> Commit
    ensures { result ≡ spec.commit_of t.now note.now address }
{
    Commit {
        address: address_in(t, address.cast_unsigned()),
        mask: note.mask,
        value: note.value,
        flows: note.flows,
    }
}

/// A value of an action at a node, where its action names have these values so far.
fn value_with(t: &Tables, scope: &Scope, values: &[i64], value: &Value) -> Result<i64, DecodeError>
    ensures { Gives (λ n. n) result
        (value_in t.now (at_values values.now (site_of scope.now)) value.now) }
{
    let here = Scope {
        ctor: scope.ctor,
        bytes: scope.bytes,
        at: scope.at,
        lengths: scope.lengths,
        context: scope.context,
        start: scope.start,
        next: scope.next,
        values,
    };
    value_of(t, &here, value)
}

/// One step: what is left of `notes`, those that no step before it took. A value or a commit is
/// added.
fn tell_once<'n>(
    t: &Tables,
    scope: &Scope,
    step: &Late,
    notes: &'n [Noted],
    values: &mut Vec<i64>,
    commits: &mut Vec<Commit>,
) -> Result<&'n [Noted], DecodeError>
    ensures { Gives (λ left. own left.now values.new.items commits.new.items) result
        (late_step t.now (site_of scope.now) step.now
        (own notes.now values.old.items commits.old.items)) }
{
    match step {
        Late::Name(value) => {
            match value_with(t, scope, values.as_slice(), value) {
                Ok(n) => {
                    values.push(n)?;
                    Ok(notes)
                }
                Err(error) => Err(error),
            }
        }
        Late::Commit(value) => {
            let Some((note, left)) = notes.split_first() else {
                return Ok(notes);
            };
            match value_with(t, scope, values.as_slice(), value) {
                Ok(address) => {
                    commits.push(commit_of(t, note, address))?;
                    Ok(left)
                }
                Err(error) => Err(error),
            }
        }
    }
}

/// A row of steps: what is left of `notes`. Values and commits are added.
fn tell_row<'n>(
    t: &Tables,
    scope: &Scope,
    steps: &[Late],
    notes: &'n [Noted],
    values: &mut Vec<i64>,
    commits: &mut Vec<Commit>,
) -> Result<&'n [Noted], DecodeError>
    ensures { Gives (λ left. own left.now values.new.items commits.new.items) result
        (in_turn (late_step t.now (site_of scope.now)) steps.now
        (own notes.now values.old.items commits.old.items)) }
{
    let mut rest = notes;
    'steps: for index in 0..steps.len() {
        match tell_once(t, scope, &steps[index], rest, values, commits) {
            Ok(next) => rest = next,
            Err(error) => return Err(error),
        }
    }
    Ok(rest)
}

/// All steps. Values and commits are added.
pub fn tell_all(
    t: &Tables,
    scope: &Scope,
    steps: &Steps<Late>,
    notes: &[Noted],
    values: &mut Vec<i64>,
    commits: &mut Vec<Commit>,
) -> Result<(), DecodeError>
    ensures { Gives (λ _. told values.new.items commits.new.items) result
        (told_of (in_turn (late_step t.now (site_of scope.now)) steps.now
        (own notes.now values.old.items commits.old.items))) }
{
    let rows = steps.rows();
    let mut left = notes;
    'rows: for index in 0..rows.len() {
        match tell_row(t, scope, rows[index].as_slice(), left, values, commits) {
            Ok(next) => left = next,
            Err(error) => return Err(error),
        }
    }
    Ok(())
}
