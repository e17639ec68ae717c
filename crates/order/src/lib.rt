// The order in which an append in place does its work: theory only. What is to be believed is in specs/, what is proved of it in proofs/.
#![tactic(auto)]

// There is nothing to run: the crate is its definitions and what is proved of them.
pub fn theory() -> u64 {
    0
}
