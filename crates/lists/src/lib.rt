// Laws about plain lists: theory only, in specs/.
#![tactic(auto)]

// There is nothing to run: the crate is its definitions and what is proved of them.
pub fn theory() -> u64 {
    0
}
