// The answer words of the call that turns text into a name. Here is their definition alone: `answer` has the code.

#![tactic(auto)]
