// What is claimed of closest and miss at a quarter hour, as theorems over the calls: `proofs/NoOther.antt` has what they test and meet on any bytes,
// `proofs/SoundPanes.antt` what they answer over sound records. No code.
#![tactic(auto)]
