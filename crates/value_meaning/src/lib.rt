// What the scheduler's values stand for: the one scheduler that describes a state's, in specs/, and the laws that carry each model to document
// 01's definition, in proofs/. There is no code here.
#![tactic(auto)]

use value_effects::Scheduler;
