// Laws of models in BLIF (02, Ticket 4). This crate has no functions: the laws stand in specs/.
#![tactic(auto)]
