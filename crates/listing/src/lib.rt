// What the reader sees of a sheet, line by line, as the console lists it.
#![tactic(auto)]

mod lister;
mod listing;

pub use listing::Listing;
