// What the programs ask of the system, over the standard library: arguments, inputs and outputs, and a line that says why a call failed.
// A name of a file is bytes. One that is not UTF-8 cannot be opened, since a path of the standard library is text.
#![tactic(auto)]

mod arguments;
mod files;
mod place;
mod says;

pub use arguments::{argument, argument_count};
pub use files::{Input, Output, create, open, print, read, read_block, write};
pub use place::left;
pub use says::fail;
