//! Machines between two instructions.

use sl_decode_contexts::ContextMap;
use sl_word::State;

/// A machine between two instructions.
#[derive(Drop)]
pub struct Machine {
    /// The bytes of the spaces of its specification, in their order.
    pub state: State,
    /// The address of the next instruction, in the default space.
    pub counter: u64,
    /// The context at each address, by the commits so far.
    pub contexts: ContextMap,
}
