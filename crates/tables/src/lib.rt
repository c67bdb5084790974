// Tables by number, for the definitions of other crates (instructions, registers, commands): specs/ has them, and there is no
// code.

#![tactic(auto)]
