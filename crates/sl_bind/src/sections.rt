//! Rules 38 and 39 over the flat sections of a text, and the sizes of the sections.

ghost use Rattle.std.specs.Prelude.{◌≡◌, length, None, IfErr, IfOk};
ghost use Rattle.sl_bind.specs.Binding as spec;
ghost use Rattle.sl_bind.specs.Sections.{AreKept, StopsAt, TellsSizes};
ghost use Rattle.sl_bind.specs.Verdict.{item_at};
ghost use Rattle.sl_bind.specs.declared.fault.BindFault.TheVariants as fault;
ghost use Rattle.sl_bind.specs.declared.fault.Refusal.TheVariants.{At};
ghost use Rattle.sl_section_all.specs.Views.{scopes_view};
ghost use Rattle.sl_base_graphs.specs.Orders.{NoneReaches};
ghost use Rattle.sl_spec_order.specs.Orders.{graph};
ghost use Rattle.sl_section_sizes.specs.Sizings.{lists_of};
ghost use Rattle.sl_spec.specs.Unfolded.{all_placed};
ghost use Rattle.sl_spec_tables.specs.TableRules.{late_fault};

use crate::fault::{BindFault, Refusal};
use sl_section_all::{Judged, Scopes, judge_sections};
use sl_section_sizes::{SizeFault, SizesError, section_sizes};
use sl_spec::{Tables, Unfolded};
use sl_spec_tables::{LateFault, Place};
use sl_word::Size;
use std::alloc::Global;

/// The item at which a rule over the whole is broken; none is the text's end.
pub fn item_at(place: Place) -> Option<u32>
    ensures { result ≡ item_at place }
{
    match place {
        Place::Item(number) => Some(number),
        Place::End => None,
    }
}

/// A fault of sizes as a fault of the text.
fn fault_of(fault: SizeFault) -> BindFault
    ensures { result ≡ spec.fault_of fault }
{
    match fault {
        SizeFault::Clash => BindFault::SizeClash,
        SizeFault::Unfixed => BindFault::SizeUnfixed,
        SizeFault::Rule => BindFault::Rule(40),
    }
}

/// What is told of sizes that aren't found.
fn told(error: SizesError) -> Refusal
    ensures { TellsSizes error result }
{
    match error {
        SizesError::Fault(item, fault) => Refusal::At(fault_of(fault), Some(item)),
        SizesError::NoMemory => Refusal::NoMemory,
    }
}

/// A broken rule over the whole as a refusal.
fn broken(late: LateFault) -> Refusal
    ensures { result ≡ At (fault.Rule late.rule) (item_at late.place) }
{
    Refusal::At(BindFault::Rule(late.rule), item_at(late.place))
}

/// The sizes of the sections of a text, where rules 38 and 39 hold.
pub fn sizes_of<'s, 'a>(
    alloc: Global,
    t: &Tables<'a>,
    scopes: &Scopes<'s, 'a>,
    constructors: &[Unfolded<'s, 'a>],
) -> Result<Vec<Vec<Size>>, Refusal>
    requires late { late_fault t.now (all_placed constructors.now) ≡ None }
    requires acyclic { NoneReaches (graph (length t.now.tables) t.now.constructors) }
    ensures kept { IfOk result (λ sizes. AreKept t.now (scopes_view scopes.now)
        (all_placed constructors.now) (lists_of sizes.items)) }
    ensures refused { IfErr result (StopsAt t.now (scopes_view scopes.now)
        (all_placed constructors.now)) }
{
    let Ok(judged) = judge_sections(alloc, t, scopes, constructors) else {
        return Err(Refusal::NoMemory);
    };
    match judged {
        Judged::Broken(late) => Err(broken(late)),
        Judged::Kept(sections) => match section_sizes(alloc, t, sections.as_slice()) {
            Ok(sizes) => Ok(sizes),
            Err(error) => Err(told(error)),
        },
    }
}
