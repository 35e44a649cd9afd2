// The papers' numbers, each named once. A body's length is told by the one table of lengths by kind (table_records::bodies), and the
// numbers 21 to 41 by what they refuse (rules::Refusal; reader_result gives each its number).
//
// kinds      the kinds of records and classes
// roots      the roots of a packet and of an event
// roles      what a field's number may be taken for
// signs      the sign of ranges
// entries    the kinds of entries
// faults     what refuses a table, and the number of a reading that it refuses
// limits     what a table or a stream may have at most, and what stands for none
#![tactic(auto)]

pub mod entries;
pub mod faults;
pub mod kinds;
pub mod limits;
pub mod roles;
pub mod roots;
pub mod signs;
