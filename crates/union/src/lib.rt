// Laws above the session that no function needs: what calls leave, what is sent, and two ends.
#![tactic(auto)]
