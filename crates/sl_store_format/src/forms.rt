//! The alternatives of each rule that has three or more, in the order of their bytes.

use sl_store_bytes::Coded;

/// What follows `define`.
#[derive(Clone, Copy, Debug, PartialEq, Eq)]
pub enum DefinitionForm {
    Endian,
    Alignment,
    Space,
    BitRanges,
    PcodeOps,
    Token,
    Context,
    Registers,
}

static DEFINITION_FORMS: [DefinitionForm; 8] = [
    DefinitionForm::Endian,
    DefinitionForm::Alignment,
    DefinitionForm::Space,
    DefinitionForm::BitRanges,
    DefinitionForm::PcodeOps,
    DefinitionForm::Token,
    DefinitionForm::Context,
    DefinitionForm::Registers,
];

impl Coded for DefinitionForm {
    ghost use Rattle.sl_store_format.specs.Forms.{definition_forms, definition_code};

    ghost table = { definition_forms };

    ghost code = { definition_code };

    fn table() -> &'static [DefinitionForm] {
        &DEFINITION_FORMS
    }

    fn code(&self) -> u8 {
        *self as u8
    }
}

/// An attribute of a space.
#[derive(Clone, Copy, Debug, PartialEq, Eq)]
pub enum AttributeForm {
    Type,
    Size,
    WordSize,
    Default,
}

static ATTRIBUTE_FORMS: [AttributeForm; 4] = [
    AttributeForm::Type,
    AttributeForm::Size,
    AttributeForm::WordSize,
    AttributeForm::Default,
];

impl Coded for AttributeForm {
    ghost use Rattle.sl_store_format.specs.Forms.{attribute_forms, attribute_code};

    ghost table = { attribute_forms };

    ghost code = { attribute_code };

    fn table() -> &'static [AttributeForm] {
        &ATTRIBUTE_FORMS
    }

    fn code(&self) -> u8 {
        *self as u8
    }
}

/// A member of an attached list.
#[derive(Clone, Copy, Debug, PartialEq, Eq)]
pub enum MemberForm {
    Word,
    Text,
    Integer,
}

static MEMBER_FORMS: [MemberForm; 3] = [MemberForm::Word, MemberForm::Text, MemberForm::Integer];

impl Coded for MemberForm {
    ghost use Rattle.sl_store_format.specs.Forms.{member_forms, member_code};

    ghost table = { member_forms };

    ghost code = { member_code };

    fn table() -> &'static [MemberForm] {
        &MEMBER_FORMS
    }

    fn code(&self) -> u8 {
        *self as u8
    }
}

/// A token of a display.
#[derive(Clone, Copy, Debug, PartialEq, Eq)]
pub enum ShownForm {
    Word,
    Text,
    Blank,
    Caret,
    Char,
}

static SHOWN_FORMS: [ShownForm; 5] = [
    ShownForm::Word,
    ShownForm::Text,
    ShownForm::Blank,
    ShownForm::Caret,
    ShownForm::Char,
];

impl Coded for ShownForm {
    ghost use Rattle.sl_store_format.specs.Forms.{shown_forms, shown_code};

    ghost table = { shown_forms };

    ghost code = { shown_code };

    fn table() -> &'static [ShownForm] {
        &SHOWN_FORMS
    }

    fn code(&self) -> u8 {
        *self as u8
    }
}

/// An item.
#[derive(Clone, Copy, Debug, PartialEq, Eq)]
pub enum ItemForm {
    Define,
    AttachList,
    AttachOne,
    Macro,
    Constructor,
    With,
}

static ITEM_FORMS: [ItemForm; 6] = [
    ItemForm::Define,
    ItemForm::AttachList,
    ItemForm::AttachOne,
    ItemForm::Macro,
    ItemForm::Constructor,
    ItemForm::With,
];

impl Coded for ItemForm {
    ghost use Rattle.sl_store_format.specs.Forms.{item_forms, item_code};

    ghost table = { item_forms };

    ghost code = { item_code };

    fn table() -> &'static [ItemForm] {
        &ITEM_FORMS
    }

    fn code(&self) -> u8 {
        *self as u8
    }
}

/// A bit pattern.
#[derive(Clone, Copy, Debug, PartialEq, Eq)]
pub enum PatternForm {
    Name,
    Constraint,
    Paren,
    Ellipsis,
    And,
    Then,
    Or,
}

static PATTERN_FORMS: [PatternForm; 7] = [
    PatternForm::Name,
    PatternForm::Constraint,
    PatternForm::Paren,
    PatternForm::Ellipsis,
    PatternForm::And,
    PatternForm::Then,
    PatternForm::Or,
];

impl Coded for PatternForm {
    ghost use Rattle.sl_store_format.specs.Forms.{pattern_forms, pattern_code};

    ghost table = { pattern_forms };

    ghost code = { pattern_code };

    fn table() -> &'static [PatternForm] {
        &PATTERN_FORMS
    }

    fn code(&self) -> u8 {
        *self as u8
    }
}

/// A statement.
#[derive(Clone, Copy, Debug, PartialEq, Eq)]
pub enum StatementForm {
    Local,
    Declare,
    Assign,
    Goto,
    Branch,
    Call,
    Return,
    Build,
    Export,
    Invoke,
    Label,
}

static STATEMENT_FORMS: [StatementForm; 11] = [
    StatementForm::Local,
    StatementForm::Declare,
    StatementForm::Assign,
    StatementForm::Goto,
    StatementForm::Branch,
    StatementForm::Call,
    StatementForm::Return,
    StatementForm::Build,
    StatementForm::Export,
    StatementForm::Invoke,
    StatementForm::Label,
];

impl Coded for StatementForm {
    ghost use Rattle.sl_store_format.specs.Forms.{statement_code};
    ghost use Rattle.sl_store_format.specs.StatementForms.{statement_forms};

    ghost table = { statement_forms };

    ghost code = { statement_code };

    fn table() -> &'static [StatementForm] {
        &STATEMENT_FORMS
    }

    fn code(&self) -> u8 {
        *self as u8
    }
}

/// What is left of `=`.
#[derive(Clone, Copy, Debug, PartialEq, Eq)]
pub enum LeftForm {
    Name,
    Bits,
    Star,
}

static LEFT_FORMS: [LeftForm; 3] = [LeftForm::Name, LeftForm::Bits, LeftForm::Star];

impl Coded for LeftForm {
    ghost use Rattle.sl_store_format.specs.Forms.{left_code};
    ghost use Rattle.sl_store_format.specs.StatementForms.{left_forms};

    ghost table = { left_forms };

    ghost code = { left_code };

    fn table() -> &'static [LeftForm] {
        &LEFT_FORMS
    }

    fn code(&self) -> u8 {
        *self as u8
    }
}

/// A target that is written out.
#[derive(Clone, Copy, Debug, PartialEq, Eq)]
pub enum DirectForm {
    Label,
    Name,
    Integer,
}

static DIRECT_FORMS: [DirectForm; 3] = [DirectForm::Label, DirectForm::Name, DirectForm::Integer];

impl Coded for DirectForm {
    ghost use Rattle.sl_store_format.specs.Forms.{direct_code};
    ghost use Rattle.sl_store_format.specs.StatementForms.{direct_forms};

    ghost table = { direct_forms };

    ghost code = { direct_code };

    fn table() -> &'static [DirectForm] {
        &DIRECT_FORMS
    }

    fn code(&self) -> u8 {
        *self as u8
    }
}

/// What a `call` calls.
#[derive(Clone, Copy, Debug, PartialEq, Eq)]
pub enum TargetForm {
    Name,
    Integer,
    Computed,
}

static TARGET_FORMS: [TargetForm; 3] = [
    TargetForm::Name,
    TargetForm::Integer,
    TargetForm::Computed,
];

impl Coded for TargetForm {
    ghost use Rattle.sl_store_format.specs.Forms.{target_code};
    ghost use Rattle.sl_store_format.specs.StatementForms.{target_forms};

    ghost table = { target_forms };

    ghost code = { target_code };

    fn table() -> &'static [TargetForm] {
        &TARGET_FORMS
    }

    fn code(&self) -> u8 {
        *self as u8
    }
}

/// An expression.
#[derive(Clone, Copy, Debug, PartialEq, Eq)]
pub enum ExpressionForm {
    Integer,
    Name,
    Paren,
    Call,
    Sized,
    Dropped,
    Bits,
    Prefix,
    Star,
    Binary,
}

static EXPRESSION_FORMS: [ExpressionForm; 10] = [
    ExpressionForm::Integer,
    ExpressionForm::Name,
    ExpressionForm::Paren,
    ExpressionForm::Call,
    ExpressionForm::Sized,
    ExpressionForm::Dropped,
    ExpressionForm::Bits,
    ExpressionForm::Prefix,
    ExpressionForm::Star,
    ExpressionForm::Binary,
];

impl Coded for ExpressionForm {
    ghost use Rattle.sl_store_format.specs.Forms.{expression_code};
    ghost use Rattle.sl_store_format.specs.StatementForms.{expression_forms};

    ghost table = { expression_forms };

    ghost code = { expression_code };

    fn table() -> &'static [ExpressionForm] {
        &EXPRESSION_FORMS
    }

    fn code(&self) -> u8 {
        *self as u8
    }
}
