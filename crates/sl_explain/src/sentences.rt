//! The sentences that a refused text breaks, and what to write instead.

ghost use Rattle.std.specs.Prelude.{◌≡◌, ◌++◌, OnOk};
ghost use Rattle.sl_explain.specs.Rows.{rows_of};
ghost use Rattle.sl_explain.specs.Sentences.{advice, asked, cause_words, feature_advice, flaw_advice};
ghost use Rattle.sl_explain.specs.Sentences.{flaw_asked, line_of, lines_of, rule_advice, rule_line, rule_lines};

use sl_ast::symbols::Feature;
use sl_bind_compile::Flaw;
use sl_explain_lines::push_fact;
use sl_preproc_directives::fault::Cause;
use std::alloc::AllocError;

/// The sentences of each rule, by its number.
static RULES: [(u8, &[u8]); 55] = [
    (1, b"define endian is the first item, and stands once"),
    (2, b"alignment stands at most once, and is 1 to 16 bytes"),
    (
        3,
        b"a name that is defined is new in the text, and no reserved one",
    ),
    (
        4,
        b"a space has size and type once each: 1 to 8, and ram_space, rom_space or register_space",
    ),
    (5, b"no second space is default"),
    (
        6,
        b"registers lie in a space that is defined before, and have 1 to 16 bytes",
    ),
    (
        7,
        b"all places of a definition of registers end within their space",
    ),
    (
        8,
        b"a bit range's register is defined before; the range has at least one bit, and ends \
            within the register",
    ),
    (9, b"a token has 8 to 64 bits, a multiple of 8"),
    (
        10,
        b"a field's low bit is at most its high bit, which is below the token's bits; a field of \
            a token has no noflow",
    ),
    (
        11,
        b"one define context at most, of a register defined before, with at most 8 bytes; high \
            bits are below its bits",
    ),
    (12, b"no field has both hex and dec, nor an attribute twice"),
    (
        13,
        b"each attached field is defined before, and attached once",
    ),
    (
        14,
        b"members are registers of one size, or texts and words, or integers from -2^63 to 2^63 \
            - 1; _ stands for none",
    ),
    (
        15,
        b"a list has 1 to 2^width members, the skipped ones counted, for the width of each of \
            its fields",
    ),
    (
        16,
        b"a display word behind the mnemonic is an operand (a bare name of the pattern, an \
            action name) or a register",
    ),
    (
        17,
        b"a name with a relation is a field; a bare name is a field, a table or epsilon",
    ),
    (
        18,
        b"no name but epsilon is bare twice, and a constructor has at most 32 operands",
    ),
    (19, b"inside | no name but epsilon is bare"),
    (20, b"no constraint divides by 0"),
    (
        21,
        b"an action's left side is a context field, or a name that is no global name and set by \
            no earlier action",
    ),
    (
        22,
        b"an action uses token fields of the pattern, context fields, action names set before, \
            inst_start, inst_next",
    ),
    (
        23,
        b"an action on a context field uses no inst_next, no action name, and no field right of \
            a ; behind a table",
    ),
    (24, b"globalset names a context field"),
    (
        25,
        b"the address of globalset is an integer, inst_start, inst_next, a bare token field or \
            an action name",
    ),
    (
        26,
        b"a name here is an operand, an earlier local, a register other than the context's, a \
            bit range, inst_start or inst_next",
    ),
    (
        26,
        b"a local is no operand, no parameter and no global name, and is declared once",
    ),
    (26, b"the parameters of a macro differ"),
    (26, b"the space of a star form that is read is defined"),
    (
        26,
        b"a written size is at least 1, and a count of bits is 1 to 128",
    ),
    (
        27,
        b"a parameter, local, register, bit range, field with registers, table or star form in a \
            defined space may be assigned",
    ),
    (
        27,
        b"an argument whose parameter the macro assigns is a name that may be assigned",
    ),
    (
        28,
        b"each label stands once in its section or macro, and each that is used stands there",
    ),
    (29, b"build names a table operand, each at most once"),
    (
        30,
        b"export stands at most once, as the last statement, and not in instruction",
    ),
    (
        30,
        b"export takes a local, register, field with registers or table, a number as *[const]:n, \
            or *:n of one of these",
    ),
    (
        31,
        b"a call in an expression names a user operation, or a function with as many arguments \
            as it takes",
    ),
    (
        31,
        b"a call that is a statement names an earlier macro with as many arguments, or a user \
            operation",
    ),
    (31, b"a macro has no build and no export"),
    (32, b"a default space exists"),
    (
        33,
        b"instruction has a constructor, and there are at most 65535 in all",
    ),
    (34, b"no table reaches itself"),
    (
        35,
        b"each constructor of instruction has at least one byte, its tables taken at their least \
            length",
    ),
    (
        36,
        b"an instruction has at most 1024 nodes: a constructor has 1 and those of its tables",
    ),
    (
        37,
        b"an instruction has at most 255 bytes, its tables taken at their greatest length",
    ),
    (
        38,
        b"a constructor weighs at most 65536 tokens, those of its macros and of its heaviest \
            tables among them",
    ),
    (
        38,
        b"all constructors of a table that aren't unimpl export, or none does",
    ),
    (
        38,
        b"a table that is read, assigned, jumped to or exported has a constructor that exports",
    ),
    (39, b"a table that is assigned exports no constant"),
    (
        39,
        b"a jump without brackets goes to a label, a number, or a table of constants or fixed \
            places in the default space",
    ),
    (40, b"in x:n n is at most the size of x"),
    (40, b"in x(n) n is below the size of x"),
    (40, b"a bit range lies within its value"),
    (40, b"zext and sext don't shrink"),
    (40, b"all exports of a table have one size"),
];

/// Appends what is asked of a text.
#[tactic(auto, unfolding(crate::specs::Sentences::asked))]
pub fn push_asked(out: &mut Vec<u8>, words: &[u8]) -> Result<(), AllocError>
    ensures { OnOk result (out.new.items ≡ out.old.items ++ asked words.now) }
{
    push_fact(out, b"  asked ", words)
}

/// Appends what to write instead.
#[tactic(auto, unfolding(crate::specs::Sentences::advice))]
pub fn push_advice(out: &mut Vec<u8>, words: &[u8]) -> Result<(), AllocError>
    ensures { OnOk result (out.new.items ≡ out.old.items ++ advice words.now) }
{
    push_fact(out, b"  write ", words)
}

/// The sentence that a refusal of a file or a directive breaks.
fn cause_words(cause: Cause) -> &'static [u8]
    ensures { result.now ≡ cause_words cause }
{
    match cause {
        Cause::NoFile => {
            b"a name is that of a file; an included one is joined to the folder of its file"
        }
        Cause::TooLong => b"a file has at most 16777216 bytes, and so has the expanded text",
        Cause::IncludeDepth => {
            b"at most 16 files stand within one another, the main file among them"
        }
        Cause::UndefinedName => b"a name that is replaced or compared is defined before",
        Cause::ReplaceDepth => b"values are replaced within one another at most 16 times",
        Cause::BadDirective => {
            b"a line that begins with @ is one of @include @define @undef @ifdef @ifndef @if \
                @elif @else @endif, in its form"
        }
        Cause::Unbalanced => {
            b"@elif, @else and @endif have an @if in their file, and each @if has its @endif; \
                @else comes once and last"
        }
    }
}

/// Appends the sentence that a refusal of a file or a directive breaks.
pub fn push_asked_of_cause(out: &mut Vec<u8>, cause: Cause) -> Result<(), AllocError>
    ensures { OnOk result (out.new.items ≡ out.old.items ++ asked (cause_words cause)) }
{
    push_asked(out, cause_words(cause))
}

/// Appends a line for each row of this number.
fn push_rows(out: &mut Vec<u8>, number: u8, rows: &[(u8, &[u8])]) -> Result<(), AllocError>
    ensures { OnOk result (out.new.items ≡ out.old.items ++ lines_of number (rows_of rows.now)) }
{
    'each: for row in rows {
        if row.0 == number {
            push_asked(out, row.1)?;
        }
    }
    Ok(())
}

/// Appends the sentences of the rule with this number.
#[tactic(auto, unfolding(crate::specs::Sentences::rule_lines))]
fn push_rule(out: &mut Vec<u8>, number: u8) -> Result<(), AllocError>
    ensures { OnOk result (out.new.items ≡ out.old.items ++ rule_lines number) }
{
    push_rows(out, number, &RULES)
}

/// Appends the line of the row of this number before which so many of the same number are.
fn push_row(
    out: &mut Vec<u8>,
    number: u8,
    which: usize,
    rows: &[(u8, &[u8])],
) -> Result<(), AllocError>
    ensures { OnOk result (out.new.items
        ≡ out.old.items ++ line_of number which (rows_of rows.now)) }
{
    let mut left = which;
    'each: for row in rows {
        let is_of_rule = row.0 == number;
        if is_of_rule {
            if left == 0 {
                return push_asked(out, row.1);
            }
            left -= 1;
        }
    }
    Ok(())
}

/// Appends one of the sentences of the rule with this number.
#[tactic(auto, unfolding(crate::specs::Sentences::rule_line))]
pub fn push_sentence(out: &mut Vec<u8>, number: u8, which: usize) -> Result<(), AllocError>
    ensures { OnOk result (out.new.items ≡ out.old.items ++ rule_line number which) }
{
    push_row(out, number, which, &RULES)
}

/// Appends what is asked of a text that has the flaw.
pub fn push_asked_of_flaw(out: &mut Vec<u8>, flaw: Flaw) -> Result<(), AllocError>
    ensures { OnOk result (out.new.items ≡ out.old.items ++ flaw_asked flaw) }
{
    match flaw {
        Flaw::Rule(number) => push_rule(out, number),
        Flaw::SizeClash => push_asked(
            out,
            b"some choice of sizes from 1 to 16 meets all that the section says",
        ),
        Flaw::SizeUnfixed => push_asked(
            out,
            b"just one choice of sizes meets all that the section says; no size is a default",
        ),
        Flaw::InteriorEllipsis => push_asked(
            out,
            b"what stands behind a ; whose left side has no fixed length holds everywhere",
        ),
        Flaw::TokensDiffer => push_asked(
            out,
            b"of & one side's tokens begin the other's, a shorter side having ... or none; sides \
                of | have the same, or one none",
        ),
        Flaw::Impossible => push_asked(out, b"something matches a pattern"),
        Flaw::TooManyCubes(_) => push_asked(
            out,
            b"a pattern needs at most 1024 cubes: & and ; multiply, | adds",
        ),
        Flaw::WindowTooLong(_) => push_asked(out, b"a pattern looks at the first 16 bytes at most"),
    }
}

/// Appends what to write instead where the rule with this number is broken, if that is known.
fn push_rule_advice(out: &mut Vec<u8>, number: u8) -> Result<(), AllocError>
    ensures { OnOk result (out.new.items ≡ out.old.items ++ rule_advice number) }
{
    if number == 32 {
        push_advice(
            out,
            b"default behind the size of the space of the instructions",
        )
    } else {
        Ok(())
    }
}

/// Appends what to write instead in a text that has the flaw, if that is known.
pub fn push_advice_on_flaw(out: &mut Vec<u8>, flaw: Flaw) -> Result<(), AllocError>
    ensures { OnOk result (out.new.items ≡ out.old.items ++ flaw_advice flaw) }
{
    match flaw {
        Flaw::Rule(number) => push_rule_advice(out, number),
        Flaw::TooManyCubes(_) => push_advice(
            out,
            b"a general constructor, and special ones for the other values",
        ),
        _ => Ok(()),
    }
}

/// Appends what to write instead of the form that the language leaves out, if that is known.
pub fn push_advice_on_feature(out: &mut Vec<u8>, feature: Feature) -> Result<(), AllocError>
    ensures { OnOk result (out.new.items ≡ out.old.items ++ feature_advice feature) }
{
    match feature {
        Feature::Crossbuild => Ok(()),
        Feature::DelaySlot => push_advice(
            out,
            b"a table of the instructions that may follow as an operand behind the branch, and \
                build of it",
        ),
        Feature::FloatingPoint => push_advice(out, b"a user operation, at which a run stops"),
        Feature::ConstantPool => push_advice(out, b"a user operation, at which a run stops"),
        Feature::NewObject => push_advice(out, b"a user operation, at which a run stops"),
        Feature::AddressOf => push_advice(out, b"the register's offset as a number"),
        Feature::LeadingEllipsis => Ok(()),
        Feature::NameInConstraint => push_advice(out, b"a constructor for each value"),
        Feature::WordSize => push_advice(
            out,
            b"addresses of bytes: words times 2 in actions and pointers",
        ),
        Feature::InstNext2 => push_advice(
            out,
            b"a table of the instructions that may follow as an operand, and an action name \
                behind it",
        ),
        Feature::WideValue => push_advice(out, b"parts of 16 bytes at most"),
    }
}
