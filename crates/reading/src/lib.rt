// Sealed files read, without their key.
#![tactic(auto)]

mod faults;
mod parts;
mod prefix;
mod reader;
mod record;
mod scan;
mod scanning;
mod section;
mod sections;
mod shape;
mod tally;

pub use parts::read_parts;
pub use reader::Reader;
pub use record::{Item, Record};
pub use section::Section;
pub use sections::{Sections, cut_file};
