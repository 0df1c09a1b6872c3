//! Rules that hang on how names stand in patterns that aren't known yet.

ghost use Rattle.std.specs.Prelude.{◌≡◌, ◌&&◌, ◌||◌, Bool, OnOk, IfOk};
ghost use Rattle.std.specs.List.{list_all};
ghost use Rattle.sl_spec_actions.specs.Pending.{all_stand, broken, hanging_on, settled};
ghost use Rattle.sl_spec_rules.specs.Names.{Name, is_among};

use crate::set_names::{add_once, name_at};
use sl_spec_rules::NameSet;
use std::alloc::{AllocError, Global};
use std::marker::Model;

/// A rule that is broken already, or else hangs on how these names stand in patterns inside.
#[derive(Drop)]
pub(crate) struct Pending<'a> {
    pub holds: bool,
    pub names: NameSet<'a>,
}

impl<'a> Model for Pending<'a> {
    ghost use Rattle.sl_spec_actions.specs.Pending as spec;

    ghost Value = { spec.Pending };

    ghost view = { λ p. record { holds = p.holds; names = p.names } };
}

impl<'a> Pending<'a> {
    /// A rule that hangs on no name.
    pub fn new(alloc: Global) -> Self
        ensures { result ≡ settled }
    {
        Pending {
            holds: true,
            names: NameSet::new(alloc),
        }
    }

    /// It hangs on one name more.
    pub fn hang_on(&mut self, name: &'a [u8]) -> Result<(), AllocError>
        ensures { OnOk result (self.new ≡ hanging_on self.old name.now) }
    {
        add_once(&mut self.names, name)
    }

    /// It is broken, however names stand.
    pub fn break_it(&mut self)
        ensures { self.new ≡ broken self.old }
    {
        self.holds = false;
    }
}

/// Adds a name, where it isn't one of those.
fn add_unless<'a>(
    names: &mut NameSet<'a>,
    name: &'a [u8],
    those: &NameSet<'a>,
) -> Result<(), AllocError>
    ensures { OnOk result ((f : Name → Bool) → list_all f names.new
        ≡ (list_all f names.old && (is_among those.now name.now || f name.now))) }
{
    if !those.has(name) {
        add_once(names, name)?;
    }
    Ok(())
}

/// The names without those.
fn without<'a>(
    alloc: Global,
    names: &NameSet<'a>,
    those: &NameSet<'a>,
) -> Result<NameSet<'a>, AllocError>
    ensures { IfOk result (λ left. (f : Name → Bool) → list_all f left
        ≡ list_all (λ n. is_among those.now n || f n) names.now) }
{
    let mut left = NameSet::new(alloc);
    'names: for index in 0..names.len() {
        let name = name_at(names, index);
        add_unless(&mut left, name, those)?;
    }
    Ok(left)
}

/// What is left of a rule that has its names stand somewhere, inside a pattern where those do.
pub(crate) fn left_inside<'a>(
    alloc: Global,
    of: &Pending<'a>,
    those: &NameSet<'a>,
) -> Result<Pending<'a>, AllocError>
    ensures { IfOk result (λ left. (f : Name → Bool) → all_stand left f
        ≡ all_stand of.now (λ n. is_among those.now n || f n)) }
{
    let names = without(alloc, &of.names, those)?;
    Ok(Pending {
        holds: of.holds,
        names,
    })
}
