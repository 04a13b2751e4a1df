// The two lines under the driver's line calls, and the machine that its accesses meet: definitions in specs/, what the calls
// do to the lines in proofs/.
#![tactic(auto)]
