//! What is done at a node before its operands.

ghost use Rattle.std.specs.Prelude.{◌≡◌, ◌*◌, ◌%◌, ◌^◌, ℕ, []};
ghost use Rattle.sl_decode.specs.Inputs.{input_of};
ghost use Rattle.sl_decode.specs.Outcomes.{Gives};
ghost use Rattle.sl_decode_meaning.specs.Actions as spec;
ghost use Rattle.sl_decode_meaning.specs.Actions.{changed};
ghost use Rattle.sl_decode_meaning.specs.Decoding.{site_at};
ghost use Rattle.sl_decode_meaning.specs.Outcomes.{in_turn};
ghost use Rattle.sl_decode_plan.specs.Steps.{early_step};

use crate::decode::{Choose, Decode, value_of};
use crate::outcomes::DecodeError;
use sl_decode_meaning::Noted;
use sl_decode_plan::{Early, Plan, Scope};
use sl_spec::CtorId;

/// A number moved up by so many bits.
#[tactic(auto, using(crate::proofs::BitLemmas::all_out))]
fn moved(number: u64, low: u8) -> u64
    ensures { result ≡ number * 2 ^ low % 2 ^ 64 }
{
    if low < 64 { number << low } else { 0 }
}

/// The low bits of a value in the place of the bits of the mask, which begin at `low`.
fn with_bits(low: u8, mask: u64, context: u64, value: i64) -> u64
    ensures { result ≡ spec.with_bits low mask context value }
{
    context & !mask | moved(value.cast_unsigned(), low) & mask
}

impl<C: Choose> Decode<'_, '_, C> {
    /// One step, from a context: the context behind it. A note is added.
    fn change_once(
        &self,
        ctor: CtorId,
        at: u32,
        step: &Early,
        context: u64,
        notes: &mut Vec<Noted>,
    ) -> Result<u64, DecodeError>
        ensures { (x : ℕ) → Gives (λ now. changed now notes.new.items) result
            (early_step self.now.tables.now
            (site_at (input_of C.chosen self.now) ctor at [] x 0) step.now
            (changed context notes.old.items)) }
    {
        match step {
            Early::Set(low, mask, value) => {
                let scope = Scope {
                    ctor,
                    bytes: self.bytes,
                    at,
                    lengths: &[],
                    context,
                    start: self.address,
                    next: 0,
                    values: &[],
                };
                let value = value_of(self.tables, &scope, value)?;
                Ok(with_bits(*low, *mask, context, value))
            }
            Early::Note(mask, flows) => {
                notes.push(Noted {
                    mask: *mask,
                    value: context & *mask,
                    flows: *flows,
                })?;
                Ok(context)
            }
        }
    }

    /// A row of steps, from a context: the context behind them. Notes are added.
    fn change(
        &self,
        ctor: CtorId,
        at: u32,
        steps: &[Early],
        context: u64,
        notes: &mut Vec<Noted>,
    ) -> Result<u64, DecodeError>
        ensures { Gives (λ x. changed x notes.new.items) result
            (in_turn (early_step self.now.tables.now
            (site_at (input_of C.chosen self.now) ctor at [] context 0)) steps.now
            (changed context notes.old.items)) }
    {
        let mut now = context;
        'steps: for index in 0..steps.len() {
            now = self.change_once(ctor, at, &steps[index], now, notes)?;
        }
        Ok(now)
    }

    /// All steps of a plan, from a context: the context behind them. Notes are added.
    pub fn change_by(
        &self,
        ctor: CtorId,
        at: u32,
        plan: &Plan,
        context: u64,
        notes: &mut Vec<Noted>,
    ) -> Result<u64, DecodeError>
        ensures { Gives (λ x. changed x notes.new.items) result
            (in_turn (early_step self.now.tables.now
            (site_at (input_of C.chosen self.now) ctor at [] context 0)) plan.now.early
            (changed context notes.old.items)) }
    {
        let rows = plan.early.rows();
        let mut now = context;
        'rows: for index in 0..rows.len() {
            match self.change(ctor, at, rows[index].as_slice(), now, notes) {
                Ok(next) => now = next,
                Err(error) => return Err(error),
            }
        }
        Ok(now)
    }
}
