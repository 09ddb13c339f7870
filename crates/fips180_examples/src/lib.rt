// Published digests of FIPS 180-4's hashes, by computation from the definition: proofs/Examples.antt. No code.
#![tactic(auto)]
