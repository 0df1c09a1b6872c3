//! What finds encodings.

ghost use Rattle.std.specs.Prelude.{◌≡◌, ℕ, List, IfOk, MatchOption, length};
ghost use Rattle.sl_asm_encodings.specs.Encodings.{IsEncoding};
ghost use Rattle.sl_list_instructions.specs.Instructions.{DecodeFunction};

use std::alloc::{AllocError, Global};

/// What finds encodings of a text.
pub trait Encoder {
    /// How bytes decode.
    ghost decodes: { Self → DecodeFunction };

    /// What has to hold before anything is looked for.
    ghost ready: { Self → Type 0 };

    /// As many bytes that are an encoding of the text at the address from the context, or `None`
    /// exactly where there are none. The only error is want of memory.
    fn encode(
        &self,
        alloc: Global,
        text: &[u8],
        address: u64,
        context: u64,
        count: u8,
    ) -> Result<Option<Vec<u8>>, AllocError>
        requires { ready self.now }
        ensures { IfOk result (λ found. MatchOption found
            ((bytes : List ℕ) → length bytes ≡ count
            → IsEncoding (decodes self.now) address context text.now bytes → ⊥)
            (λ b. (length b.items ≡ count)
            × IsEncoding (decodes self.now) address context text.now b.items)) };
}
