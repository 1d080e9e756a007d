// The answer words of the calls on a directory. Here are their definitions alone: `answer` and `look_up` have the code.

#![tactic(auto)]
