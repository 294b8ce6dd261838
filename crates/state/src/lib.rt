// What a check has so far, in tables: variables, abbreviations, goals, facts with their lists and footings (specs/Held.antt says how they stand
// for the definition's state). Of the core, they are read and written here alone; behind what is used a table is zero.
// A cell is read and written by its place, `4 * v + 1`: the tables are C's cells, and `readers.rt` of `kernel` says why they are not taken as rows `[[u32; 4]]`.
#![tactic(auto)]

pub mod board;
pub mod defs;
pub mod goals;
pub mod recorded;
pub mod sizes;
pub mod vars;
