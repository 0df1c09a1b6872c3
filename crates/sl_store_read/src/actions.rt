//! Bit patterns as parts of lists, and disassembly actions.

ghost use Rattle.sl_ast.specs.Views.{action_of, operand_of_address, pattern_of};
ghost use Rattle.sl_store_format.specs.Actions as reader;
ghost use Rattle.sl_store_format.specs.Patterns as patterns;
ghost use Rattle.sl_store_bytes.specs.Reads.{Reads};

use crate::parts::Part;
use sl_ast::patterns::{Action, Address, Pattern};
use sl_parse_phrases::operators::Kind;
use sl_store_bytes::{Bytes, Stop};
use sl_store_phrases::{name, natural, whole_expression, whole_pattern};
use std::alloc::Global;

impl<'a> Part<'a> for Pattern<'a> {
    ghost use Rattle.sl_ast.specs.Trees as t;

    ghost Tree = { t.Pattern };

    ghost view = { pattern_of };

    ghost reader = { patterns.whole_pattern };

    fn read(alloc: Global, bytes: &mut Bytes<'a>) -> Result<Pattern<'a>, Stop> {
        whole_pattern(alloc, bytes)
    }
}

/// A name or an integer.
#[tactic(auto, unfolding(sl_store_format::specs::Actions::operand_here, sl_store_bytes::specs::Lists::either))]
pub fn operand_here<'a>(bytes: &mut Bytes<'a>) -> Result<Address<'a>, Stop>
    ensures { Reads operand_of_address (reader.operand_here bytes.old) result bytes.new }
{
    if bytes.below(2)? == 0 {
        let name = name(bytes)?;
        Ok(Address::Name(name))
    } else {
        let value = natural(bytes)?;
        Ok(Address::Integer(value))
    }
}

impl<'a> Part<'a> for Action<'a> {
    ghost use Rattle.sl_ast.specs.Trees as t;

    ghost Tree = { t.Action };

    ghost view = { action_of };

    ghost reader = { reader.action };

    #[tactic(auto, unfolding(sl_store_format::specs::Actions::action, sl_store_bytes::specs::Lists::either))]
    fn read(alloc: Global, bytes: &mut Bytes<'a>) -> Result<Action<'a>, Stop> {
        if bytes.below(2)? == 0 {
            let name = name(bytes)?;
            let value = whole_expression(alloc, bytes, Kind::Action)?;
            Ok(Action::Assign(name, value))
        } else {
            let address = operand_here(bytes)?;
            let field = name(bytes)?;
            Ok(Action::GlobalSet(address, field))
        }
    }
}
