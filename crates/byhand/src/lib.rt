// Steps for proofs by hand: what walks of functions over a lent record or a lent run of records share, in the program logic. The functions
// of this repository have generated proofs, and none is walked; the steps stay proved, for one that has to be. There is no code here.
#![tactic(auto)]
