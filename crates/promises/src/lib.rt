// Theorems over the definitions below. There is no function here.
// What a built file says when it is opened and looked up in: theorems over the definition of crate `builder`.
// What a salvaged file says when it is opened, looked up in and salvaged again: theorems over the definition of crate `salvage`.
#![tactic(auto)]
