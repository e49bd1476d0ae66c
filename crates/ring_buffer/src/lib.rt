//! An event buffer whose kept events stand in a ring of bytes, and nowhere else: the byte of an offset lies at the offset
//! modulo the ring's size, and each client goes on from the place and the offset that it has come to.
#![tactic(auto)]

mod calls;
pub mod laws;
mod pointer;
mod pointers;
mod ring;
mod ring_buffer;
mod search;
mod slot;
mod walk;

pub use pointer::Pointer;
pub use pointers::Pointers;
pub use ring::Ring;
pub use ring_buffer::RingBuffer;
