//! Values that have bytes of their own, lists and optional parts of them.

ghost use Rattle.std.specs.Prelude.{◌≡◌, ◌++◌, ◌∷◌, [], ℕ, List, IfOk, map, option_map};
ghost use Rattle.sl_store_bytes.specs.Lists.{write_all, write_list, write_option, write_separated};
ghost use Rattle.sl_store_bytes.specs.Numbers.{write_number};

use sl_store_bytes::{Coded, put_bytes, put_number};
use std::alloc::AllocError;

/// A value that has bytes of its own.
pub trait Put {
    ghost Tree: { Type 0 };

    ghost view: { Self → Tree };

    ghost write: { Tree → List ℕ };

    /// Writes the value.
    fn put(&self, out: &mut Vec<u8>) -> Result<(), AllocError>
        ensures { IfOk result (λ _. out.new.items ≡ out.old.items ++ write (view self.now)) };
}

/// Writes the byte of a member of a table.
pub fn put_code<K: Coded>(out: &mut Vec<u8>, member: K) -> Result<(), AllocError>
    ensures { IfOk result (λ _. out.new.items ≡ out.old.items ++ K.code member ∷ []) }
{
    out.push(member.code())?;
    Ok(())
}

/// Writes an optional part: 0 where it lacks, else 1 and the part.
pub fn put_option<P: Put>(out: &mut Vec<u8>, part: &Option<P>) -> Result<(), AllocError>
    ensures { IfOk result (λ _. out.new.items ≡ out.old.items ++ write_option P.write (option_map P.view part.now)) }
{
    match part {
        None => out.push(0)?,
        Some(part) => {
            out.push(1)?;
            part.put(out)?;
        }
    }
    Ok(())
}

/// Writes a number that may lack.
pub fn put_number_option(out: &mut Vec<u8>, number: &Option<u64>) -> Result<(), AllocError>
    ensures { IfOk result (λ _. out.new.items ≡ out.old.items ++ write_option write_number number.now) }
{
    match number {
        None => out.push(0)?,
        Some(number) => {
            out.push(1)?;
            put_number(out, *number)?;
        }
    }
    Ok(())
}

/// Writes members one after another, without their number.
fn put_all<P: Put>(out: &mut Vec<u8>, members: &[P]) -> Result<(), AllocError>
    ensures { IfOk result (λ _. out.new.items ≡ out.old.items ++ write_all P.write (map P.view members.now)) }
{
    'rounds: for index in 0..members.len() {
        members[index].put(out)?;
    }
    Ok(())
}

/// Writes members after their number.
pub fn put_list<P: Put>(out: &mut Vec<u8>, members: &[P]) -> Result<(), AllocError>
    ensures { IfOk result (λ _. out.new.items ≡ out.old.items ++ write_list P.write (map P.view members.now)) }
{
    put_number(out, members.len() as u64)?;
    put_all(out, members)?;
    Ok(())
}

/// Writes a list as an optional part: its first member, and the list of the others.
pub fn put_separated<P: Put>(out: &mut Vec<u8>, members: &[P]) -> Result<(), AllocError>
    ensures { IfOk result (λ _. out.new.items ≡ out.old.items ++ write_separated P.write (map P.view members.now)) }
{
    match members {
        [] => out.push(0)?,
        [first, others @ ..] => {
            out.push(1)?;
            first.put(out)?;
            put_list(out, others)?;
        }
    }
    Ok(())
}

impl<P: Put> Put for Vec<P> {
    ghost Tree = { List P.Tree };

    ghost view = { λ members. map P.view members.items };

    ghost write = { write_list P.write };

    fn put(&self, out: &mut Vec<u8>) -> Result<(), AllocError> {
        put_list(out, self.as_slice())
    }
}

impl<'a> Put for &'a [u8] {
    ghost use Rattle.sl_ast.specs.Views.{bytes};
    ghost use Rattle.sl_store_bytes.specs.Lexemes.{write_bytes};

    ghost Tree = { List ℕ };

    ghost view = { bytes };

    ghost write = { write_bytes };

    fn put(&self, out: &mut Vec<u8>) -> Result<(), AllocError> {
        put_bytes(out, *self)
    }
}

impl Put for String {
    ghost use Rattle.std.specs.String.{string_bytes};
    ghost use Rattle.sl_store_bytes.specs.Lexemes.{write_bytes};

    ghost Tree = { List ℕ };

    ghost view = { string_bytes };

    ghost write = { write_bytes };

    fn put(&self, out: &mut Vec<u8>) -> Result<(), AllocError> {
        put_bytes(out, self.as_bytes())
    }
}
