// Demand 3: a whole frame, counted and drawn, is what the ticks give. Definitions and theorems; nothing here runs.
#![tactic(auto)]
