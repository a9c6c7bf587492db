// Faults print their numbers.
ghost use Rattle.std.specs.Prelude.{◌≡◌};
ghost use Rattle.logs.specs.Faults.{fault_refusal, number_first, replay_fault_text};
ghost use Rattle.logs.specs.declared.faults.ReplayFault.{ReplayFault};

// What a fault prints begins with its number. A replay's fault has those of keys, openings, rosters, piles and sources inside.
pub fn words_begin_with_numbers()
    ensures { (fault : ReplayFault) → number_first (replay_fault_text fault) ≡ (fault_refusal 0 fault).number }
{}
