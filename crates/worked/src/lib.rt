// The starred rows of document 01 and an interlaced screen by document 02, computed from the rules. Definitions and statements; nothing here runs.
#![tactic(auto)]
