// The answer words of the shapes that several calls share. Here are their definitions alone: `answer` has the code.

#![tactic(auto)]
