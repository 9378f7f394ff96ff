// No code: condition 3, the totals, the steps, the visits and the loops of every history, held to what was sent, answered and reported.
#![tactic(auto)]
