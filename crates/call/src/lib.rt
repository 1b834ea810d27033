// Definitions and laws alone: one build call, what it answers and leaves. No function is here.
#![tactic(auto)]
