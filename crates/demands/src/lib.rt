// The demands, of the code: specs/ and proofs/ alone. There is no function here.
#![tactic(auto)]
