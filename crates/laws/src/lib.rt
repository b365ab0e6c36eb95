// Laws of the layouts: what is written is read back, and what is read was written so, but for the pad and the flags.
#![tactic(auto)]
