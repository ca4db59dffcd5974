// Facts of whole numbers and of lists that every proof above uses: specs/ has the one definition that the law cites,
// proofs/ the lemmas. There is no code here.
#![tactic(auto)]
