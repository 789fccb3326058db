//! What the words of a command line say: operands, options and numbers.
//!
//! All words come in, the command among them as word 0; an option begins with `--`, and every other word after the
//! command is an operand. Out go the files that operands and options name, the values of options, and whether there is
//! any option that a command doesn't have. A word that writes a number comes in alone, and the number goes out where the
//! word has few enough digits and the number lies where it must. Nothing here takes memory, and nothing knows a command.
//! The crate stands on `plain_text` and `moduli_sets`; `command_words` makes jobs of what it reads. Its worked rows
//! stand in `proofs/Rows.antt`; its code is tested in `command_tests`, through the top call.
#![tactic(auto)]

mod numbers;
mod operands;
mod options;

pub use numbers::{integer_in_range, residues_in, steps_in};
pub use operands::{FileWord, file_and_input, file_option, name_of, named_file};
pub use options::{OptionKind, OptionRow, has_flag, has_only_options, option_value};
