//! User operations: rule 3, and what they add.

ghost use Rattle.std.specs.Prelude.{◌≡◌, ◌++◌, true, OnOk, map};
ghost use Rattle.sl_spec_rules.specs.Demands.{Gives};
ghost use Rattle.sl_spec_rules.specs.Names.{differ_behind};
ghost use Rattle.sl_spec_registers.specs.UserOps.{userop_of, userop_step};

use crate::names::are_new;
use sl_spec::{Named, Tables, UserOp};
use sl_spec_rules::Fault;
use std::alloc::{AllocError, Global};

/// Adds operations whose names are new.
fn add<'a>(userops: &mut Named<'a, UserOp<'a>>, names: &[&'a [u8]]) -> Result<(), AllocError>
    requires { differ_behind (map (λ u. u.name) userops.old) (map (λ n. n.now) names.now) ≡ true }
    ensures { OnOk result (userops.new
        ≡ userops.old ++ map userop_of (map (λ n. n.now) names.now)) }
{
    'names: for index in 0..names.len() {
        let name = names[index];
        userops.add(name, UserOp { name })?;
    }
    Ok(())
}

/// Defines user operations. `alloc` is for the test that no two of the names are the same.
#[tactic(auto, using(crate::proofs::FreshLemmas::are_free))]
pub fn define_userops<'a>(
    alloc: Global,
    t: &mut Tables<'a>,
    names: &[&'a [u8]],
) -> Result<(), Fault>
    ensures { Gives (λ _. t.new) result (userop_step t.old (map (λ n. n.now) names.now)) }
{
    if !are_new(alloc, t, names)? {
        return Err(Fault::Rule(3));
    }
    add(&mut t.userops, names)?;
    Ok(())
}
