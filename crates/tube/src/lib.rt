// The chart as a monitor shows it, in today's rooms and in the oldest: definitions and theorems; nothing here runs.
#![tactic(auto)]
