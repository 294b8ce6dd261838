// A check form by form, over tables that may be longer than named: its beginning, one form of the proof, its end. Each cuts the tables to their named
// lengths, lends these parts to the exact ones (`beginning::begin`, `advancing::next_form`, `running::finish`), and leaves what lies behind as it was.
#![tactic(auto)]

pub mod begin;
pub mod finish;
pub mod form;
pub mod used;
