// What a pile is: a bounded sample on numbered places, kept while tags come and go.
//
// One trait, `Pile`, which every bottom and every layer keeps, with the faults and receipts that its calls answer and the
// questions put before an opening. Promised by the trait, for every pile and every input: each answer and what the pile
// means afterwards are those of specs/Rules.antt, and the meaning is sound (specs/Meaning.antt). `laws` has what follows
// over whole lists of changes. Nothing here allocates, recurses or panics.
//
// Definitions: specs/Meaning.antt says what a pile means, specs/Rules.antt what each call answers and changes,
// specs/Answers.antt which number, words and values an answer has, specs/Opening.antt what is asked before an opening,
// specs/Laws.antt the words of the laws.

#![tactic(auto)]

pub mod faults;
pub mod laws;
pub mod opening;
pub mod pile;
pub mod receipts;

pub use self::pile::Pile;
pub use faults::{OpeningFault, PileFault};
pub use opening::{ask_bound, ask_classes, ask_front, size_or_one};
pub use receipts::{EntryReceipt, LeaveReceipt, PlaceState, Tag};
