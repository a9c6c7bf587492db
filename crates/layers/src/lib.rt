// The two layers: piles that stand over any pile, which they hold by value.
//
// `ClassFilter` counts fewer classes, `Front` shows the first places only. Promised: over every pile, each keeps the
// contract of `pile::Pile`, with the meaning that specs/Layers.antt makes of the meaning below, and a layer opened over a
// new pile is new.

#![tactic(auto)]

pub mod class_filter;
pub mod front;

pub use class_filter::ClassFilter;
pub use front::Front;
