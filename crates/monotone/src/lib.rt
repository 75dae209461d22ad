// The mathematics behind Film, proved once for every film: no code, definitions in specs/ and laws in proofs/.
//
// A rule says how many cells a field has, how high a pressure may be, and what each cell requires by the pressures
// of the others. From two facts, neither of which knows what a grid, a file or a float is, follows all that is claimed
// of runs and line proposals:
//
// 1. Monotone relaxation (specs/Rule, specs/Sweep; proofs/Sweep). Where a higher field requires no less, steps that
//    lift a cell to at most what it requires never pass a feasible field. When as many quiet relaxations in a row as
//    there are cells have named every cell, the field is feasible, and so it is the least. When a required pressure
//    passes the ceiling, nothing is feasible.
// 2. The comparison principle for a Minkowski matrix (specs/Linear; proofs/Compare, proofs/Linear). A field whose
//    slack is nowhere positive where it is above another, which has none negative, is nowhere above it. So a proposal
//    for any cells is sound if the slack of each cell that it raises is at most 0.
//
// proofs/History puts them together: what holds of every list of calls, each of which is good by itself.
#![tactic(auto)]
