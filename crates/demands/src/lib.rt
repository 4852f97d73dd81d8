// The owner's three demands, each said once over the machine's own calls. Definitions and theorems; nothing here runs.
#![tactic(auto)]
