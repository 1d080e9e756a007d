// Lists of numbers, tests on numbers and counts, as definitions and laws. There is no code here.

#![tactic(auto)]
