// The answer words of the verdict. Here are their definitions alone: `answer` and `verdict` have the code.

#![tactic(auto)]
