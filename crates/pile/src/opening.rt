// The questions put before an opening. An opening itself cannot refuse.
ghost use Rattle.std.specs.Prelude.{◌≡◌};
ghost use Rattle.pile.specs.Answers.{told_by, opening_fault_number};
ghost use Rattle.pile.specs.Opening.{asked, one_to_64, bound_rule, classes_rule, front_rule, taken_size};

use crate::faults::OpeningFault;

fn is_size(n: u8) -> bool
    ensures { result ≡ one_to_64 n }
{
    (1..=64).contains(&n)
}

// The setting again where it passes, and the fault where it does not.
fn ask(passes: bool, setting: u8, fault: OpeningFault) -> Result<u8, OpeningFault>
    ensures { told_by opening_fault_number result ≡ asked passes (opening_fault_number fault) setting }
{
    passes.then_some(setting).ok_or(fault)
}

// Is the bound 1 to 64?
pub fn ask_bound(bound: u8) -> Result<u8, OpeningFault>
    ensures { told_by opening_fault_number result ≡ bound_rule bound }
{
    ask(is_size(bound), bound, OpeningFault::Bound)
}

// Is the class set not empty? It is the byte that a host has, bit c for class c.
pub fn ask_classes(classes: u8) -> Result<u8, OpeningFault>
    ensures { told_by opening_fault_number result ≡ classes_rule classes }
{
    ask(classes != 0, classes, OpeningFault::ClassSet)
}

// Is the front 1 to 64?
pub fn ask_front(size: u8) -> Result<u8, OpeningFault>
    ensures { told_by opening_fault_number result ≡ front_rule size }
{
    ask(is_size(size), size, OpeningFault::FrontSize)
}

// The bound or front that an opening takes: 1 where it did not pass.
pub fn size_or_one(size: u8) -> u8
    ensures { result ≡ taken_size size }
{
    if is_size(size) { size } else { 1 }
}
