// The three demands as theorems over document 01's definitions: that the tests, the walk and the complete clearance are what the
// desk asked for. Nothing here runs; the theorems stand in `proofs`, what they say in `specs`.
#![tactic(auto)]
