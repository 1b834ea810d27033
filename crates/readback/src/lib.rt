// Theorems alone: the store that is written parses to the value that it was made as and reads back by the reader's rules, the map is one to one, and
// the worked examples. No function is here.
#![tactic(auto)]
