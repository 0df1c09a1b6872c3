//! Why a run stopped, and its line.

ghost use Rattle.std.specs.Prelude.{◌≡◌, ◌++◌, OnOk, option_map, slice_get};
ghost use Rattle.sl_meaning_sections.specs.Values as section;
ghost use Rattle.sl_step_run.specs.Executing.{fault_of, stopped_by};
ghost use Rattle.sl_step_run.specs.RunLines.{decode_words, fault_line, fault_words, name_of};
ghost use Rattle.sl_step_run.specs.RunLines.{section_words};
ghost use Rattle.sl_step.specs.Outcomes.{fault_of as error_fault, section_fault};

use sl_decode_meaning::Fault;
use sl_spec::Tables;
use sl_step::{EmuFault, StepError};
use sl_word::UserId;
use std::alloc::AllocError;

/// Why a run stopped.
#[derive(Clone, Copy, Debug, PartialEq, Eq)]
pub enum RunFault {
    /// The counter is no multiple of the alignment.
    Misaligned,
    /// The bytes at the counter don't decode.
    Decode(Fault),
    /// A constructor of the instruction is `unimpl`.
    Unimplemented,
    /// The instruction's section has a fault.
    Section(EmuFault),
}

/// The fault that an error of a step tells; none where memory ran out.
pub(crate) fn fault_in(error: StepError) -> Option<RunFault>
    ensures { option_map fault_of result ≡ error_fault error }
{
    match error {
        StepError::Misaligned => Some(RunFault::Misaligned),
        StepError::Decode(fault) => Some(RunFault::Decode(fault)),
        StepError::Unimplemented => Some(RunFault::Unimplemented),
        StepError::Emu(fault) => Some(RunFault::Section(fault)),
        StepError::NoMemory => None,
    }
}

/// Why bytes don't decode, in words.
fn decode_words(fault: Fault) -> &'static [u8]
    ensures { result.now ≡ decode_words fault }
{
    match fault {
        Fault::NoConstructor { .. } => b"no constructor",
        Fault::NoEntry { .. } => b"no entry",
        Fault::ActionDivide { .. } => b"action divide",
    }
}

/// Appends the name of a user operation.
fn push_name(out: &mut Vec<u8>, tables: &Tables, op: UserId) -> Result<(), AllocError>
    ensures { OnOk result (out.new.items
        ≡ out.old.items ++ name_of (slice_get tables.now.userops op.0)) }
{
    match tables.userops.at(op.0 as usize) {
        Some(user) => out.extend_from_slice(user.name),
        None => Ok(()),
    }
}

/// Appends that a user operation was called.
fn push_user_op(out: &mut Vec<u8>, tables: &Tables, op: UserId) -> Result<(), AllocError>
    ensures { OnOk result (out.new.items
        ≡ out.old.items ++ section_words tables.now (section.calls_user_op op.0)) }
{
    out.extend_from_slice(b"user operation ")?;
    push_name(out, tables, op)
}

/// Appends the fault of a section in words.
fn push_section_fault(out: &mut Vec<u8>, tables: &Tables, fault: EmuFault) -> Result<(), AllocError>
    ensures { OnOk result (out.new.items
        ≡ out.old.items ++ section_words tables.now (section_fault fault)) }
{
    match fault {
        EmuFault::DivideByZero => out.extend_from_slice(b"divide by zero"),
        EmuFault::UserOp(op) => push_user_op(out, tables, op),
        EmuFault::JumpLimit => out.extend_from_slice(b"jump limit"),
    }
}

/// Appends a fault in words.
fn push_words(out: &mut Vec<u8>, tables: &Tables, fault: RunFault) -> Result<(), AllocError>
    ensures { OnOk result (out.new.items
        ≡ out.old.items ++ fault_words tables.now (fault_of fault)) }
{
    match fault {
        RunFault::Misaligned => out.extend_from_slice(b"misaligned"),
        RunFault::Decode(fault) => out.extend_from_slice(decode_words(fault)),
        RunFault::Unimplemented => out.extend_from_slice(b"unimplemented"),
        RunFault::Section(fault) => push_section_fault(out, tables, fault),
    }
}

/// Appends the fault, where a run stopped at one.
pub(crate) fn push_fault(
    out: &mut Vec<u8>,
    tables: &Tables,
    fault: Option<RunFault>,
) -> Result<(), AllocError>
    ensures { OnOk result (out.new.items
        ≡ out.old.items ++ fault_line tables.now (stopped_by fault)) }
{
    let Some(fault) = fault else {
        return Ok(());
    };
    out.extend_from_slice(b"fault ")?;
    push_words(out, tables, fault)?;
    out.extend_from_slice(b"\n")
}
