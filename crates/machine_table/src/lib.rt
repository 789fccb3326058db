//! The instructions of the machine, what they mean over plain integers, and the programs that are sound.
//!
//! In come instructions and data words; out goes an `Object`, in which every register, target, address and constant
//! exists, or the first rule that the program breaks. The crate stands on `moduli_sets`; the loader, the assembler, the
//! machine and the selector stand on it.
#![tactic(auto)]

mod fault;
mod instr;
mod laws;
mod object;
mod rules;

pub use fault::ObjectFault;
pub use instr::Instr;
pub use laws::sound_programs_have_no_fault;
pub use object::Object;
