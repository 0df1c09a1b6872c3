//! Laws of contexts.

ghost use Rattle.sl_decode_contexts.specs.Commits.{ContextIsOne, SomeContext};

/// At each address there is one context at most.
pub fn context_is_one()
    ensures { ContextIsOne }
{}

/// At each address there is a context, whatever was committed.
pub fn some_context()
    ensures { SomeContext }
{}
