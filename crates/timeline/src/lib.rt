// The endless timeline of periodic tasks on one processor: its definitions, in specs/, and its laws, in proofs/.
#![tactic(auto)]
