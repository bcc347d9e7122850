// What the public calls promise (the demands: docs/RULES.md; 01, What a contract fixes): definitions and theorems, no code.
//
// Each contract determines its call, refusals come exactly when and in the order that 01 says, bits outside a window alter nothing,
// a cut window's answer is the front of the whole one's, and the fourteen proved cases hold. A theorem here cites contracts and laws
// of the crates below; it proves nothing of their code anew.

#![tactic(auto)]
