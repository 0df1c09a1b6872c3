//! What sections export.

ghost use Rattle.std.specs.Prelude.{◌≡◌, option_map};
ghost use Rattle.sl_section_flat.specs.Views.{export_of, number_of, steps_of, symbol_of};
ghost use Rattle.sl_section_flat.specs.Chains.{bytes_of};
ghost use Rattle.sl_section_equations.specs.Uses as u;

use crate::put::is_bare;
use sl_section_flat::{Export, Section, Step, Symbol};
use sl_word::{Size, SpaceId};

/// What a section exports (SLEIGH manual, "The Export Keyword").
#[derive(Clone, Copy, Debug, PartialEq, Eq)]
pub enum ExportKind {
    Nothing,
    /// `*[const]:n`, a number.
    Constant,
    /// Memory in the default space at a number, which may be the target of a jump.
    Place,
    /// What the operand of this number exports.
    Table(u32),
    /// A register, a local, or other memory.
    Storage,
}

fn symbol_kind(a: Symbol) -> ExportKind
    ensures { result ≡ u.symbol_kind (symbol_of a) }
{
    match a {
        Symbol::Table(i) => ExportKind::Table(i),
        Symbol::Register(_) | Symbol::BitRange(_, _) | Symbol::Local(_) => ExportKind::Storage,
        Symbol::Attached(_, _) | Symbol::Value(_) => ExportKind::Storage,
        Symbol::Start | Symbol::Next | Symbol::Integer(_) => ExportKind::Storage,
    }
}

fn is_default(default: SpaceId, space: Option<SpaceId>) -> bool
    ensures { result ≡ u.is_default default.0 (option_map number_of space) }
{
    match space {
        None => true,
        Some(space) => space.0 == default.0,
    }
}

fn kind_of(default: SpaceId, what: &Export) -> ExportKind
    ensures { result ≡ u.kind_of default.0 (export_of what.now) }
{
    match what {
        Export::Name(a, _) => symbol_kind(*a),
        Export::Constant(_, _, _) => ExportKind::Constant,
        Export::Memory(space, _, t, _) => {
            if is_default(default, *space) && is_bare(t) {
                ExportKind::Place
            } else {
                ExportKind::Storage
            }
        }
    }
}

/// What the section exports, where `default` is the default space.
pub fn export_kind(default: SpaceId, section: &Section<'_>) -> ExportKind
    ensures { result ≡ u.export_kind default.0 (steps_of section.now.steps.items) }
{
    let steps = section.steps.as_slice();
    'steps: for step in steps {
        if let Step::Export(what) = step {
            return kind_of(default, what);
        }
    }
    ExportKind::Nothing
}

fn export_variable(what: &Export) -> u32
    ensures { result ≡ u.export_variable (export_of what.now) }
{
    match what {
        Export::Name(_, x) => *x,
        Export::Constant(_, _, x) => *x,
        Export::Memory(_, _, _, x) => *x,
    }
}

fn exported_variable(steps: &[Step<'_>]) -> Option<u32>
    ensures { result ≡ u.exported_variable (steps_of steps.now) }
{
    'steps: for step in steps {
        if let Step::Export(what) = step {
            return Some(export_variable(what));
        }
    }
    None
}

/// The size of what the section exports, by the sizes of its variables.
pub fn exported_size(sizes: &[Size], section: &Section<'_>) -> Option<Size>
    ensures { option_map bytes_of result
        ≡ u.exported_size sizes.now (steps_of section.now.steps.items) }
{
    let x = exported_variable(section.steps.as_slice())?;
    match sizes.get(x as usize) {
        Some(size) => Some(*size),
        None => None,
    }
}
