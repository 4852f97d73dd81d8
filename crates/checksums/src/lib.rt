// What the nine checksum bytes tell of the pixels that a field put out (02, Q-1). Definitions and theorems; nothing here runs.
#![tactic(auto)]
