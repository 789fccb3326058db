//! The rules of names: what each name is declared as, where it is visible, and what it may be used for.
//!
//! In comes the tree of a source; out goes the tree with each use of a name tied to its declaration, or the first rule
//! that the source breaks, with its line. What a name is declared as, a `Symbol`, serves those too that resolve names.
#![tactic(auto)]

mod checked;
mod checker;
mod declarations;
mod expressions;
mod fault;
mod statements;
mod symbols;
mod uses;

pub use checked::Checked;
pub use checker::check_names;
pub use fault::NameFault;
pub use symbols::Symbol;
