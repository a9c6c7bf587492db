// Rosters: who is live, under which tag, over records that the host lends; and the calls over a roster, a pile and a source.
//
// `Roster` is generic over every kind of key. `admit` opens an entry and answers its `Slip`, a token that must be spent;
// `settle` makes the key live and enters it in the pile with a draw; `withdraw` ends the entry; `enter` is admit, a draw from a source
// and settle; `leave` ends a key's life. `run` carries out a list of requests through these calls.
//
// Promised, for every kind of key, every pile, every source and every input:
// - each call answers, and leaves roster, pile and source, as the step definitions of the crate `calls` say;
// - **evenness**: if roster and pile were new, then over all tapes of draws no sample is favoured, for the whole list of calls that a run
//   carried out (clause `promise` of `run`).
// Nothing here allocates, recurses or panics.
//
// Definitions: specs/Rosters.antt says what a roster over lent records means, specs/Requests.antt and specs/Told.antt what requests and
// answers say, specs/Running.antt what a run is, specs/Entering.antt what a call does to its source, specs/Numbers.antt which number a
// fault has, specs/Opening.antt what is asked before an opening and what it gives; the rules themselves, and the promise, are in
// crates/calls/specs.

#![tactic(auto)]

pub mod faults;
pub mod record;
pub mod request;
pub mod roster;
pub mod slip;

pub use faults::{CapacityFault, EnterFault, RosterFault};
pub use record::{Pending, Record};
pub use request::{Answer, Request};
pub use roster::Roster;
pub use roster::openings::ask_capacity;
pub use roster::runs::{Ran, run};
pub use slip::{Slip, Unsettled};
