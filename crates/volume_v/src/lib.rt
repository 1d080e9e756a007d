// Volume V, the worked example of 01, as bytes, and that it is accepted. There is no code here.

#![tactic(auto)]
