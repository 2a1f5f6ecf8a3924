//! The modules and blocks of Lua of a site, joined into one program; and their files, each read once in the order in which their names are found.
#![tactic(auto)]

mod faults;
mod file_faults;
mod files;
mod finding;
mod freezing;
mod reading;
mod sets;
mod texts;
mod texts_of_files;

pub use faults::ModuleFault;
pub use file_faults::ModuleFileFault;
pub use files::file_of;
pub use freezing::freeze;
pub use reading::read_modules;
pub use sets::{Chunks, Module, ModuleSet};
