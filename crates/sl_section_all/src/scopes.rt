//! What is defined before each constructor and each macro.

ghost use Rattle.std.specs.Prelude.{◌≡◌, ◌+◌, ◌++◌, [], count_by, length, map, not, replicate};
ghost use Rattle.std.specs.Prelude.{IfOk, OnOk};
ghost use Rattle.sl_ast.specs.Unfolding.{unfolded};
ghost use Rattle.sl_ast.specs.Views.{bytes, definition_of, item_of, macro_of, names_of};
ghost use Rattle.sl_spec_definitions.specs.Items.{all_names};
ghost use Rattle.sl_section_all.specs.Scopes as spec;
ghost use Rattle.sl_section_all.specs.Views.{scopes_view};
ghost use Rattle.sl_spec_registers.specs.RegisterRules.{is_skipped};
ghost use Rattle.sl_section_resolve.specs.MacroViews.{bodies_of};
ghost use Rattle.sl_spec.specs.Numbers.{AreNumbered, AreNumberedBelow};
ghost use Rattle.sl_spec.specs.Unfolded.{all_placed, unfolded_one};
ghost use Rattle.sl_spec.specs.ConstructorItems.{constructors_in};
ghost use Rattle.sl_spec.specs.Walks.{AddsItem};

use sl_ast::constructors::Macro;
use sl_ast::definitions::{Definition, Names};
use sl_ast::items::{Item, ItemKind};
use sl_section_resolve::MacroBody;
use sl_section_terms::Reach;
use sl_spec::{Named, Unfolded, add_unfolded};
use std::alloc::{AllocError, Global};

/// What is defined behind some items.
#[derive(Drop)]
pub struct Scopes<'s, 'a> {
    /// How many things of each kind.
    pub reach: Reach,
    /// The macros in the order of the text, each with what is defined before it.
    pub macros: Named<'a, MacroBody<'s, 'a>>,
    /// What is defined before each constructor, in the order of the text.
    pub reaches: Vec<Reach>,
}

/// The constructors of a text in its order, each with the blocks round it, and what is defined.
#[derive(Drop)]
pub struct Text<'s, 'a> {
    pub constructors: Vec<Unfolded<'s, 'a>>,
    pub scopes: Scopes<'s, 'a>,
}

/// A number of things and some more. 2^64 things would be want of memory.
fn more(count: usize, added: usize) -> Result<usize, AllocError>
    ensures { IfOk result (λ n. n ≡ count + added) }
{
    count.checked_add(added).ok_or(AllocError)
}

/// Whether a name of a register skips a place.
fn is_skipped(name: &[u8]) -> bool
    ensures { result ≡ is_skipped name.now }
{
    name == b"_".as_slice()
}

/// How many of these names aren't `_`.
#[tactic(auto, using(sl_spec_rules::proofs::Seen::seen))]
fn given_in(names: &[&[u8]]) -> usize
    ensures { result ≡ count_by (λ w. not (is_skipped w)) (map bytes names.now) }
{
    names.iter().filter(|name| !is_skipped(name)).count()
}

/// How many names aren't `_`.
fn given(names: &Names) -> usize
    ensures { result ≡ count_by (λ w. not (is_skipped w)) (all_names (names_of names.now)) }
{
    match names {
        Names::One(name) => given_in(&[*name]),
        Names::List(names) => given_in(names.as_slice()),
    }
}

/// How many names there are.
fn count_of(names: &Names) -> usize
    ensures { result ≡ length (all_names (names_of names.now)) }
{
    match names {
        Names::One(_) => 1,
        Names::List(names) => names.len(),
    }
}

/// What is defined behind a definition.
fn behind_definition(reach: Reach, definition: &Definition) -> Result<Reach, AllocError>
    ensures { IfOk result (λ next.
        next ≡ spec.with_definition reach (definition_of definition.now)) }
{
    let mut next = reach;
    match definition {
        Definition::Space(_, _) => next.spaces = more(reach.spaces, 1)?,
        Definition::BitRanges(_, ranges) => {
            next.bit_ranges = more(reach.bit_ranges, more(1, ranges.len())?)?;
        }
        Definition::PcodeOps(names) => next.userops = more(reach.userops, count_of(names))?,
        Definition::Registers(_, _, _, names) => {
            next.registers = more(reach.registers, given(names))?;
        }
        Definition::Endian(_) => (),
        Definition::Alignment(_) => (),
        Definition::Token(_, _, _, _) => (),
        Definition::Context(_, _) => (),
    }
    Ok(next)
}

/// Adds a macro, if there is none of its name.
fn add_body<'s, 'a>(
    macros: &mut Named<'a, MacroBody<'s, 'a>>,
    of: &'s Macro<'a>,
    reach: Reach,
) -> Result<(), AllocError>
    ensures { OnOk result (bodies_of macros.new ≡ spec.with_body (bodies_of macros.old)
        (record { of = macro_of of.now; reach = reach })) }
{
    let name = of.name;
    if macros.has(name) {
        return Ok(());
    }
    macros.add(name, MacroBody { of, reach })
}

/// Adds what is defined before so many constructors.
fn add_reaches(reaches: &mut Vec<Reach>, reach: Reach, count: usize) -> Result<(), AllocError>
    ensures { OnOk result (reaches.new.items ≡ reaches.old.items ++ replicate count reach) }
{
    'reaches: for _index in 0..count {
        reaches.push(reach)?;
    }
    Ok(())
}

/// Takes an item, which comes to so many constructors.
fn go_on<'s, 'a>(
    scopes: &mut Scopes<'s, 'a>,
    number: u32,
    item: &'s Item<'a>,
    count: usize,
) -> Result<(), AllocError>
    requires { count ≡ length (constructors_in (unfolded_one number (item_of item.now))) }
    ensures { OnOk result (scopes_view scopes.new
        ≡ spec.behind_items (scopes_view scopes.old) (unfolded_one number (item_of item.now))) }
{
    let reach = scopes.reach;
    match &item.kind {
        ItemKind::Define(definition) => scopes.reach = behind_definition(reach, definition)?,
        ItemKind::Macro(of) => {
            add_body(&mut scopes.macros, of, reach)?;
            scopes.reach.macros = more(reach.macros, 1)?;
        }
        ItemKind::Constructor(_) => add_reaches(&mut scopes.reaches, reach, count)?,
        ItemKind::With(_, _) => add_reaches(&mut scopes.reaches, reach, count)?,
        ItemKind::AttachList(_, _, _) => (),
        ItemKind::AttachOne(_, _, _) => (),
    }
    Ok(())
}

/// Takes an item of this number. The number behind it.
fn take_item<'s, 'a>(
    alloc: Global,
    text: &mut Text<'s, 'a>,
    number: u32,
    item: &'s Item<'a>,
) -> Result<u32, AllocError>
    ensures constructors { IfOk result (λ next. AddsItem number (item_of item.now)
        (all_placed text.old.constructors.items) next (all_placed text.new.constructors.items)) }
    ensures scopes { OnOk result (scopes_view text.new.scopes
        ≡ spec.behind_items (scopes_view text.old.scopes)
        (unfolded_one number (item_of item.now))) }
    ensures numbered { IfOk result (λ next.
        AreNumberedBelow number [] text.old.constructors.items
        → AreNumberedBelow next [] text.new.constructors.items) }
{
    let before = text.constructors.len();
    let next = add_unfolded(alloc, number, item, &mut text.constructors)?;
    let count = text.constructors.len().saturating_sub(before);
    go_on(&mut text.scopes, number, item, count)?;
    Ok(next)
}

/// The constructors of a text, and what is defined before each of them and before each macro. Blocks
/// with different heads have different numbers. Time grows with the number of items and
/// constructors. The only error is want of memory.
pub fn text_of<'s, 'a>(alloc: Global, items: &'s [Item<'a>]) -> Result<Text<'s, 'a>, AllocError>
    ensures constructors { IfOk result (λ text. all_placed text.constructors.items
        ≡ constructors_in (unfolded (map item_of items.now))) }
    ensures scopes { IfOk result (λ text. scopes_view text.scopes
        ≡ spec.scopes_of (map item_of items.now)) }
    ensures numbered { IfOk result (λ text. AreNumbered text.constructors.items) }
{
    let reach = Reach {
        spaces: 0,
        registers: 0,
        bit_ranges: 0,
        userops: 0,
        macros: 0,
    };
    let mut text = Text {
        constructors: Vec::new(alloc),
        scopes: Scopes {
            reach,
            macros: Named::new(alloc),
            reaches: Vec::new(alloc),
        },
    };
    let mut number = 0;
    'items: for index in 0..items.len() {
        number = take_item(alloc, &mut text, number, &items[index])?;
    }
    Ok(text)
}
