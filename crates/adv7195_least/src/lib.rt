// The least plan for the ADV7195: definitions and theorems alone.
#![tactic(auto)]
