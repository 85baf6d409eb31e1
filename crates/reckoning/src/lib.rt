// No code: what a calendar of mean months and middle terms is, and the laws that follow, over any constants.
#![tactic(auto)]
